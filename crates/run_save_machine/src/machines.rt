//! A machine between two turns.

ghost use Rattle.std.specs.Prelude.{◌≡◌, [], IfOk};
ghost use Rattle.verse_code.specs.Validity.{Valid};
ghost use Rattle.tx_heap.specs.State.{empty};
ghost use Rattle.vm_running.specs.Runners.{view_of};
ghost use Rattle.run_save_shots.specs.View.{shot_of};
ghost use Rattle.run_save_shots.specs.Fitting.{Fits};
ghost use Rattle.run_save_shots.specs.Spelling.{state, trees};
ghost use Rattle.run_save_machine.specs.Resting.{RestsIn};

use crate::beside::with_waits;
use crate::results::results_of;
use crate::running::{Clock, Printed, at_rest};
use crate::tasks::put_all;
use run_save_numbers::numbers::numbers;
use run_save_shots::shots::Shot;
use sim_clock::waits::Waits;
use std::alloc::Global;
use tx_heap::heaps::Heap;
use verse_base::refusals::Memory;
use verse_code::codes::Code;
use vm_running::runners::Runner;
use vm_scheduler::tasks::Tasks;

/// The parts of a machine that stands in the state and with the tasks that a shot spells which fits
/// the code, over an empty heap and no waits. The time goes with the size of the shot.
pub fn from_shot<H: Heap + Drop, W: Waits + Drop>(
    alloc: Global,
    code: &Code,
    heap: H,
    waits: W,
    shot: Shot,
) -> Result<(Runner<H>, Tasks<W>), Memory>
    requires valid { Valid code.now }
    requires fits { Fits code.now (shot_of shot) }
    requires heap { H.state heap ≡ empty }
    requires waits { W.pending waits ≡ [] }
    ensures { IfOk result (λ m. RestsIn W.pending (state (shot_of shot))
        (trees code.now (shot_of shot)) (view_of H.state m.0) m.1) }
{
    let numbers = numbers(alloc, &shot)?;
    let Shot {
        left,
        spent,
        now,
        next,
        bytes,
        lines,
        cells,
        spawned,
        tasks,
    } = shot;
    let clock = Clock { left, spent, now };
    let run = at_rest(alloc, heap, cells, clock, Printed { bytes, lines })?;
    let suspended = put_all(alloc, code, tasks, &numbers)?;
    let results = results_of(alloc, spawned)?;
    let tasks = with_waits(alloc, waits, suspended, results, next)?;
    Ok((run, tasks))
}
