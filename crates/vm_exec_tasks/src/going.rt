//! A task that no failure context and no deferred block holds.

ghost use Rattle.std.specs.Prelude.{◌≡◌, ◌≢◌, ◌<◌, ◌+◌, []};
ghost use Rattle.vm_frames.specs.Framed.{place_of};
ghost use Rattle.vm_frames.specs.Calls.{moved};
ghost use Rattle.vm_exec_tasks.specs.Asking.{IsFree};

use vm_frames::threads::Thread;

// Moves the top frame to its next place, or to a place: nothing forbids it.
pub(crate) fn go_next(thread: &mut Thread)
    requires some { thread.old ≢ [] }
    requires inner { place_of thread.old < 4294967295 }
    requires free { IsFree thread.old }
    ensures { thread.new ≡ moved (place_of thread.old + 1) thread.old }
{
    let next = thread.place() + 1;
    go_to(thread, next);
}

pub(crate) fn go_to(thread: &mut Thread, place: u32)
    requires some { thread.old ≢ [] }
    requires free { IsFree thread.old }
    ensures { thread.new ≡ moved place thread.old }
{
    if !thread.go(place) {
        unreachable!();
    }
}
