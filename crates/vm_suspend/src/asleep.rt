//! The running task falls asleep.

ghost use Rattle.std.specs.Prelude.{◌≡◌, true, [], IfOk};
ghost use Rattle.vm_tasks_laws.specs.Clocks.{cause_of};
ghost use Rattle.vm_frames.specs.Machine.{frames_with, all_free};
ghost use Rattle.vm_running.specs.Runners.{view_of};
ghost use Rattle.vm_scheduler.specs.Going.{Goes};
ghost use Rattle.vm_scheduler.specs.Meets.{Comes};
ghost use Rattle.vm_suspend.specs.Asleep.{IsOpen, suspending};

use crate::idle::rest;
use sim_clock::waits::{Wait, WaitKind, Waits};
use std::mem;
use tx_heap::heaps::Heap;
use verse_base::refusals::Memory;
use vm_frames::threads::Thread;
use vm_running::runners::Runner;
use vm_scheduler::tasks::{Tasks, Went};
use vm_tasks::slots::Held;
use vm_tasks::table::set_down;

/// The running task is suspended, and those above it go on. Memory is wanting too where no number
/// is left for the next wait.
pub fn suspend<H: Heap, W: Waits>(
    run: &mut Runner<H>,
    tasks: &mut Tasks<W>,
    kind: WaitKind,
) -> Result<Went, Memory>
    requires there { Goes W.pending (view_of H.state run.old) tasks.old }
    requires free { all_free (frames_with run.old.thread []) ≡ true }
    requires untold { IsOpen kind tasks.old }
    ensures { IfOk result (λ r. Comes W.pending (suspending (cause_of kind)) r
        (view_of H.state run.old) tasks.old (view_of H.state run.new) tasks.new) }
{
    let Some(next) = tasks.next.checked_add(1) else {
        return Err(Memory);
    };
    tasks.tree.is_nested();
    let wait = Wait {
        number: tasks.next,
        task: tasks.id,
        kind,
    };
    tasks.gone.waits.add(wait)?;
    let thread = mem::replace(&mut run.thread, Thread::empty(tasks.alloc));
    set_down(
        &mut tasks.tree,
        tasks.id,
        Held::Asleep(thread, tasks.next, kind),
    );
    tasks.next = next;
    rest(run, tasks)
}
