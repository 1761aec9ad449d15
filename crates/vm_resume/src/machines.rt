//! A machine between two turns, with its bounds.

ghost use Rattle.verse_base.specs.declared.limits.TheConstants.{MOST_NOW};
ghost use Rattle.std.specs.Prelude.{◌≡◌, ◌≤◌, [], IfOk};
ghost use Rattle.verse_code.specs.Validity.{Valid};
ghost use Rattle.tx_heap.specs.State.{empty};
ghost use Rattle.run_save_shots.specs.View.{shot_of};
ghost use Rattle.run_save_shots.specs.Fitting.{Fits};
ghost use Rattle.run_save_shots.specs.Spelling.{state, trees};
ghost use Rattle.vm_run.specs.Origins.{from_state};
ghost use Rattle.vm_run.specs.Standing.{At};
ghost use Rattle.vm_resume.specs.Steps.{steps_of};

use run_save_machine::machines as parts;
use run_save_shots::shots::Shot;
use run_save_spelled::fitting_is_resumable;
use sim_clock::waits::Waits;
use std::alloc::Global;
use tx_heap::heaps::Heap;
use verse_base::refusals::Memory;
use verse_code::codes::Code;
use vm_run::machines::{Bounds, Vm};

/// A machine that stands between two turns in the state that a shot spells which fits the code,
/// over an empty heap and no waits. It has the steps that were left and counts on from those that
/// were spent, and none of its lines was drained. The horizon is the last moment of a turn in
/// milliseconds, at most `MOST_NOW`; where it is below the least moment of a wait, the first
/// turn ends the run. The error is want of memory. The time goes with the size of the shot.
pub fn from_shot<H: Heap + Drop, W: Waits + Drop>(
    alloc: Global,
    code: &Code,
    heap: H,
    waits: W,
    shot: Shot,
    until: u64,
) -> Result<Vm<H, W>, Memory>
    requires valid { Valid code.now }
    requires fits { Fits code.now (shot_of shot) }
    requires heap { H.state heap ≡ empty }
    requires waits { W.pending waits ≡ [] }
    requires until { until ≤ MOST_NOW }
    ensures { IfOk result (λ m. At H.state W.pending code.now
        (from_state (state (shot_of shot)) (trees code.now (shot_of shot)))
        (steps_of (shot_of shot)) until 0 [] m) }
{
    fitting_is_resumable();
    let bounds = Bounds {
        steps: shot.left + shot.spent,
        until,
    };
    let (run, tasks) = parts::from_shot(alloc, code, heap, waits, shot)?;
    Ok(Vm::from_parts(code, run, tasks, bounds))
}
