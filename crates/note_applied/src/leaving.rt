//! `return` and `break`.

ghost use Rattle.std.specs.Prelude.{◌≡◌, OnOk};
ghost use Rattle.lower_notes.specs.Applied as p;
ghost use Rattle.note_stretches.specs.Noted.{noted, walked};

use lower_code::arounds::Around;
use note_stretches::noting::Noting;
use verse_base::refusals::Memory;

/// Where more blocks are deferred than stay, those run.
#[tactic(auto, using(crate::proofs::Steps::leaving_some, crate::proofs::Steps::leaving_none))]
fn leave_to(noting: &mut Noting, stay: u32, around: Around) -> Result<(), Memory>
    ensures { OnOk result (noted noting.new ≡ walked (p.leaving_to stay around)
        (noted noting.old)) }
{
    if stay < around.defers {
        noting.leave(stay)?;
    }
    Ok(())
}

/// What a `return` does with its value on the stack.
#[tactic(auto, using(note_stretches::proofs::Laws::walked_then))]
pub fn returning(noting: &mut Noting, around: Around) -> Result<(), Memory>
    ensures { OnOk result (noted noting.new ≡ walked (p.returning around) (noted noting.old)) }
{
    leave_to(noting, around.base, around)?;
    noting.ends()?;
    Ok(())
}

/// `break`
#[tactic(auto, using(note_stretches::proofs::Laws::walked_then))]
pub fn breaking(noting: &mut Noting, around: Around) -> Result<(), Memory>
    ensures { OnOk result (noted noting.new ≡ walked (p.breaking around) (noted noting.old)) }
{
    leave_to(noting, around.floor, around)?;
    if around.in_loop {
        noting.break_loop(around.height)?;
    } else {
        noting.ends()?;
    }
    Ok(())
}
