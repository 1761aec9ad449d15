//! Values at the edge of what a value of a run may be.

ghost use Rattle.std.specs.Prelude.{◌≡◌, ◌+◌, IfOk};
ghost use Rattle.verse_value.specs.View.{val_of};
ghost use Rattle.verse_value.specs.Sizes.{weight_of, levels_of};

use std::alloc::Global;
use verse_base::refusals::Memory;
use verse_value::values::Value;

/// An array of so many units.
#[tactic(auto, using(crate::proofs::Weights::one_more))]
pub fn units(alloc: Global, count: u64) -> Result<Value, Memory>
    ensures weight { IfOk result (λ v. weight_of (val_of v) ≡ 1 + count) }
{
    let mut items = Vec::new(alloc);
    'units: for _ in 0..count {
        items.push(Value::Unit)?;
    }
    Value::array(alloc, items)
}

/// Unit in so many options.
pub fn nested(alloc: Global, count: u64) -> Result<Value, Memory>
    ensures levels { IfOk result (λ v. levels_of (val_of v) ≡ 1 + count) }
{
    let mut nested = Value::Unit;
    'options: for _ in 0..count {
        nested = Value::option(alloc, nested)?;
    }
    Ok(nested)
}
