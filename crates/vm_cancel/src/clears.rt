//! The deferred blocks of cancelled tasks run.

ghost use Rattle.std.specs.Prelude.{◌≡◌, ◌≤◌, ◌+◌};
ghost use Rattle.vm_running.specs.Runners.{view_of};
ghost use Rattle.vm_scheduler.specs.Frames.{AllUnguarded};
ghost use Rattle.vm_cancel.specs.Clears.{ClearsAll};

use crate::frames::clear_frames;
use sim_clock::waits::Waits;
use tx_heap::heaps::Heap;
use vm_running::runners::Runner;
use vm_scheduler::tasks::{Tasks, Went};

/// The next deferred block of the cancelled tasks runs, or the run is over where no step is left
/// for it, or none is left. Takes no memory.
pub fn clear<H: Heap, W: Waits>(run: &mut Runner<H>, tasks: &mut Tasks<W>) -> Went
    requires unguarded { AllUnguarded tasks.old.gone.frames.items }
    requires steps { run.old.left + run.old.spent ≤ 18446744073709551615 }
    ensures blocks { ClearsAll result (view_of H.state run.old) tasks.old
        (view_of H.state run.new) tasks.new }
    ensures after { tasks.new.after ≡ tasks.old.after }
{
    'tasks: while let Some(thread) = tasks.gone.frames.pop() {
        match clear_frames(run, thread) {
            Went::Down => {}
            went => return went,
        }
    }
    Went::Down
}
