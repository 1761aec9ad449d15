//! How a frame begins.

ghost use Rattle.std.specs.Prelude.{◌≡◌, ◌≢◌, ◌∷◌, ◌++◌, [], OnOk, OnErr};
ghost use Rattle.fiber_stacks.specs.Levels.{below};
ghost use Rattle.fiber_stacks.specs.Heads.{new_head, with_locals};
ghost use Rattle.fiber.specs.Opening.{unit_values};

use fiber_stacks::heads::Heads;
use verse_base::refusals::Memory;
use verse_value::values::Value;

/// A head with locals, and so many units behind them, on top.
pub fn open(
    heads: &mut Heads<Value>,
    place: u32,
    locals: Vec<Value>,
    units: u32,
) -> Result<(), Memory>
    ensures ok { OnOk result (heads.new ≡ with_locals (locals.items ++ unit_values units)
        (new_head place ∷ heads.old)) }
    ensures err { OnErr result (heads.new ≡ heads.old) }
{
    heads.open(place)?;
    if let Err(memory) = fill(heads, locals, units) {
        heads.close();
        return Err(memory);
    }
    Ok(())
}

/// Puts locals, and so many units behind them, behind the locals of the top head.
#[tactic(auto, using(crate::proofs::RuleSets::of_fill))]
fn fill(heads: &mut Heads<Value>, locals: Vec<Value>, units: u32) -> Result<(), Memory>
    requires { heads.old ≢ [] }
    ensures ok { OnOk result (heads.new ≡
        with_locals (locals.items ++ unit_values units) heads.old) }
    ensures beneath { below heads.new ≡ below heads.old }
    ensures some { heads.new ≢ [] }
{
    heads.push_locals(locals)?;
    'units: for _i in 0..units {
        heads.push_local(Value::Unit)?;
    }
    Ok(())
}
