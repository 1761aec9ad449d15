//! What a task has begun is cancelled.

ghost use Rattle.std.specs.Prelude.{◌≡◌, ◌≤◌, ◌+◌, ◌⊎◌, true, OnOk, OnErr, Some};
ghost use Rattle.vm_running.specs.Runners.{view_of};
ghost use Rattle.vm_scheduler.specs.Frames.{AllUnguarded};
ghost use Rattle.vm_tasks.specs.Deferring.{any_deferred};
ghost use Rattle.vm_tasks.specs.Gone.{HadBlocks};
ghost use Rattle.vm_cancel.specs.Cancels.{Cancels, RunsBlocks};

use crate::clears::clear;
use sim_clock::waits::Waits;
use tx_heap::heaps::Heap;
use verse_base::refusals::Memory;
use vm_running::runners::Runner;
use vm_scheduler::tasks::{After, Tasks, Went};
use vm_tasks::table::cancel_since;

/// What a task of the tree has begun since so many steps were left goes from the tree, or the arms
/// of its group by the steps that were left when the group began. The frames of those that have
/// deferred blocks are kept until these have run; where no task has any, no memory is taken.
pub fn cancel<W: Waits>(tasks: &mut Tasks<W>, id: usize, bound: u64) -> Result<(), Memory>
    ensures ok { OnOk result (Cancels W.pending id bound tasks.old tasks.new) }
    ensures memory { OnErr result ((tasks.old.gone.lost ≡ true) ⊎
        HadBlocks any_deferred tasks.old.tree tasks.new.tree) }
{
    cancel_since(&mut tasks.tree, &mut tasks.gone, id, bound);
    if tasks.gone.lost {
        return Err(Memory);
    }
    tasks.gone.frames.reverse();
    Ok(())
}

/// The deferred blocks of the cancelled tasks run, the first of them now, and then follows what is
/// said for the task that cancels. Where there are none it is to follow at once.
pub fn run_blocks<H: Heap, W: Waits>(
    run: &mut Runner<H>,
    tasks: &mut Tasks<W>,
    id: usize,
    after: After,
) -> Went
    requires unguarded { AllUnguarded tasks.old.gone.frames.items }
    requires steps { run.old.left + run.old.spent ≤ 18446744073709551615 }
    ensures blocks { RunsBlocks W.pending id after result (view_of H.state run.old) tasks.old
        (view_of H.state run.new) tasks.new }
    ensures after { tasks.new.after ≡ Some after }
{
    tasks.id = id;
    tasks.after = Some(after);
    clear(run, tasks)
}
