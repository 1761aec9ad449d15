//! The tasks that wait until the running one is suspended or over.

ghost use Rattle.std.specs.Prelude.{◌≡◌, ◌∷◌, [], IfSome, IfNone, OnOk};
ghost use Rattle.vm_scheduler.specs.Ups.{ups_of};

use crate::tasks::Up;
use verse_base::refusals::Memory;

/// One more, the nearest.
pub fn push(ups: &mut Vec<Up>, up: Up) -> Result<(), Memory>
    ensures { OnOk result (ups_of ups.new.items ≡ up ∷ ups_of ups.old.items) }
{
    ups.push(up)?;
    Ok(())
}

/// Takes the nearest off. None where there is none. Takes no memory.
pub fn pop(ups: &mut Vec<Up>) -> Option<Up>
    ensures some { IfSome result (λ up. ups_of ups.old.items ≡ up ∷ ups_of ups.new.items) }
    ensures none { IfNone result (ups_of ups.old.items ≡ []) }
{
    ups.pop()
}
