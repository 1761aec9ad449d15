//! The next turn of a run.

ghost use Rattle.std.specs.Prelude.{◌≡◌, ◌+◌, ◌≤◌, IfOk};
ghost use Rattle.vm_running.specs.Runners.{view_of};
ghost use Rattle.vm_wake.specs.Turns.{Rested, TakesTurn, CanWake, WakesNext};

use crate::values::value_of;
use sim_clock::waits::{Due, Waits};
use tx_heap::heaps::Heap;
use verse_base::refusals::Memory;
use verse_value::runs::Ending;
use vm_running::runners::Runner;
use vm_scheduler::moves::resume;
use vm_scheduler::tasks::{Tasks, Went};
use vm_tasks::slots::Held;
use vm_tasks::table::take_up;

/// Between two turns: the task whose wait is due next goes on, for a step and in that moment. The
/// run is over, and nothing is changed, where no task waits (Done), none ever goes on (Waiting),
/// the wait is due after `until` (Until), or no step is left (Steps).
pub fn take_turn<H: Heap, W: Waits>(
    run: &mut Runner<H>,
    tasks: &mut Tasks<W>,
    until: u64,
) -> Result<Went, Memory>
    requires { Rested W.pending (view_of H.state run.old) tasks.old }
    ensures { IfOk result (λ r. TakesTurn W.pending until r (view_of H.state run.old) tasks.old
        (view_of H.state run.new) tasks.new) }
{
    if tasks.gone.waits.len() == 0 {
        return Ok(Went::Over(Ending::Done));
    }
    let Some(due) = tasks.gone.waits.next() else {
        return Ok(Went::Over(Ending::Waiting));
    };
    if until < due.at {
        return Ok(Went::Over(Ending::Until));
    }
    if run.left == 0 {
        return Ok(Went::Over(Ending::Steps));
    }
    run.left -= 1;
    run.spent += 1;
    run.moment = due.at;
    wake(run, tasks, due)
}

/// The task of a wait that is due next goes on.
fn wake<H: Heap, W: Waits>(
    run: &mut Runner<H>,
    tasks: &mut Tasks<W>,
    due: Due,
) -> Result<Went, Memory>
    requires { CanWake W.pending due (view_of H.state run.old) tasks.old }
    ensures { IfOk result (λ r. WakesNext W.pending due r (view_of H.state run.old) tasks.old
        (view_of H.state run.new) tasks.new) }
{
    tasks.tree.is_nested();
    tasks.gone.waits.remove(due.number);
    match take_up(&mut tasks.tree, due.task) {
        Held::Asleep(thread, _number, kind) => {
            tasks.tree.is_nested();
            let value = value_of(tasks, kind, due.cause)?;
            resume(run, tasks, due.task, thread, value)
        }
        _ => unreachable!(),
    }
}
