//! Waits in the order of their numbers.

ghost use Rattle.std.specs.Prelude.{◌≡◌, eqb, [], map, IfOk, OnOk};
ghost use Rattle.std.specs.List.{IsDistinct};
ghost use Rattle.run_save_slots.specs.Started.{number_of, IsInOrder, Starts};

use sim_clock::waits::{Wait, Waits};
use verse_base::refusals::Memory;

fn sorted(all: Vec<Wait>) -> Result<Vec<Wait>, Memory>
    requires { IsDistinct eqb (map number_of all.items) }
    ensures { IfOk result (λ v. IsInOrder all.items v.items) }
{
    let mut all = all;
    all.sort_by_key(|wait| wait.number)?;
    Ok(all)
}

/// Adds all waits to a clock that has none, whatever their order: each is due at its moment, and
/// otherwise not before it is woken. No two have one number.
pub fn add_all<W: Waits>(waits: &mut W, all: Vec<Wait>) -> Result<(), Memory>
    requires none { W.pending waits.old ≡ [] }
    requires distinct { IsDistinct eqb (map number_of all.items) }
    ensures { OnOk result (Starts all.items (W.pending waits.new)) }
{
    let all = sorted(all)?;
    'waits: for wait in all.as_slice() {
        waits.add(*wait)?;
    }
    Ok(())
}
