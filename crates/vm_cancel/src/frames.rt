//! The frames of a cancelled task go.

ghost use Rattle.std.specs.Prelude.{◌≡◌, ◌≤◌, ◌<◌, ◌+◌, length};
ghost use Rattle.vm_frames.specs.Framed.{defers_of};
ghost use Rattle.vm_running.specs.Runners.{view_of};
ghost use Rattle.vm_scheduler.specs.Frames.{Unguarded};
ghost use Rattle.vm_cancel.specs.Clears.{ClearsFrames};

use tx_heap::heaps::Heap;
use verse_value::runs::Ending;
use vm_frames::threads::{GONE, Thread};
use vm_running::runners::Runner;
use vm_scheduler::tasks::Went;

/// The frames of a cancelled task go, the top one first, each when its deferred blocks have run:
/// the next block runs, or the run is over where no step is left for it, or all frames are gone.
/// Takes no memory.
pub fn clear_frames<H: Heap>(run: &mut Runner<H>, thread: Thread) -> Went
    requires unguarded { Unguarded thread }
    requires steps { run.old.left + run.old.spent ≤ 18446744073709551615 }
    ensures { ClearsFrames thread result (view_of H.state run.old) (view_of H.state run.new) }
{
    let mut thread = thread;
    'frames: while thread.defers() == 0 {
        match thread.leave() {
            Some(false) => {}
            Some(true) => return Went::Down,
            None => unreachable!(),
        }
    }
    begin_block(run, thread)
}

/// The last deferred block of the top frame begins, for a step.
fn begin_block<H: Heap>(run: &mut Runner<H>, thread: Thread) -> Went
    requires unguarded { Unguarded thread }
    requires some { 0 < length (defers_of thread) }
    requires steps { run.old.left + run.old.spent ≤ 18446744073709551615 }
    ensures { ClearsFrames thread result (view_of H.state run.old) (view_of H.state run.new) }
{
    if run.left == 0 {
        return Went::Over(Ending::Steps);
    }
    run.left -= 1;
    run.spent += 1;
    let mut thread = thread;
    let block = thread.take_defer(GONE);
    let _ = thread.go(block);
    run.thread = thread;
    Went::On
}
