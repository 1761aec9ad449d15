//! What follows where tasks are cancelled.

ghost use Rattle.std.specs.Prelude.{IfOk};
ghost use Rattle.vm_running.specs.Runners.{view_of};
ghost use Rattle.vm_return.specs.Follows.{IsAtEnd, IsCleared, Follows, Unwinds};

use sim_clock::waits::Waits;
use tx_heap::heaps::Heap;
use verse_base::refusals::Memory;
use vm_cancel::cancels::run_blocks;
use vm_complete::parts::part_over;
use vm_complete::roots::root_over;
use vm_running::runners::Runner;
use vm_scheduler::moves::resume;
use vm_scheduler::tasks::{After, Tasks, Went};

/// All is cancelled that is to be: what follows for the task that has cancelled.
fn follow<H: Heap, W: Waits>(run: &mut Runner<H>, tasks: &mut Tasks<W>) -> Result<Went, Memory>
    requires { IsAtEnd W.pending (view_of H.state run.old) tasks.old }
    ensures { IfOk result (λ r. Follows W.pending r (view_of H.state run.old) tasks.old
        (view_of H.state run.new) tasks.new) }
{
    let id = tasks.id;
    match tasks.after.take() {
        Some(After::Resuming(thread, value)) => resume(run, tasks, id, thread, value),
        Some(After::Closing(value)) => part_over(run, tasks, value),
        Some(After::Finishing(value)) => root_over(run, tasks, value),
        None => unreachable!(),
    }
}

/// The deferred blocks of the cancelled tasks run, the first of them now; where there are none,
/// what follows for the task that has cancelled.
pub fn unwind<H: Heap, W: Waits>(
    run: &mut Runner<H>,
    tasks: &mut Tasks<W>,
    id: usize,
    after: After,
) -> Result<Went, Memory>
    requires { IsCleared W.pending id after (view_of H.state run.old) tasks.old }
    ensures { IfOk result (λ r. Unwinds W.pending id after r (view_of H.state run.old) tasks.old
        (view_of H.state run.new) tasks.new) }
{
    match run_blocks(run, tasks, id, after) {
        Went::Down => follow(run, tasks),
        went => Ok(went),
    }
}
