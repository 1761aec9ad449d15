//! All that a machine keeps of suspended tasks.

ghost use Rattle.std.specs.Prelude.{◌≡◌, eqb, [], map, IfOk};
ghost use Rattle.std.specs.List.{IsDistinct};
ghost use Rattle.run_save_slots.specs.Started.{number_of};
ghost use Rattle.run_save_machine.specs.Resting.{Holds};

use run_save_slots::waking::add_all;
use run_save_trees::tables::Restored;
use sim_clock::waits::Waits;
use std::alloc::Global;
use verse_base::refusals::Memory;
use vm_scheduler::tasks::{Given, Tasks};
use vm_tasks::gone::Gone;

/// The tasks with their waits, which are put into an empty clock, and what spawned ones gave.
pub(crate) fn with_waits<W: Waits + Drop>(
    alloc: Global,
    waits: W,
    restored: Restored,
    results: Vec<Option<Given>>,
    next: u64,
) -> Result<Tasks<W>, Memory>
    requires none { W.pending waits ≡ [] }
    requires distinct { IsDistinct eqb (map number_of restored.waits.items) }
    ensures { IfOk result (Holds W.pending restored results.items next) }
{
    let Restored {
        tree,
        ids: _,
        waits: all,
    } = restored;
    let mut waits = waits;
    add_all(&mut waits, all)?;
    Ok(Tasks {
        alloc,
        tree,
        gone: Gone {
            waits,
            frames: Vec::new(alloc),
            lost: false,
        },
        ups: Vec::new(alloc),
        after: None,
        id: 0,
        next,
        results,
        signals: Vec::new(alloc),
    })
}
