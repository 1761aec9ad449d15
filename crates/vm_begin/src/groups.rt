//! A group begins.

ghost use Rattle.std.specs.Prelude.{◌≡◌, true, [], IfOk};
ghost use Rattle.vm_frames.specs.Machine.{frames_with, all_free};
ghost use Rattle.vm_running.specs.Runners.{view_of};
ghost use Rattle.vm_tasks.specs.View.{kind_of};
ghost use Rattle.vm_scheduler.specs.Going.{Goes};
ghost use Rattle.vm_scheduler.specs.Meets.{Comes};
ghost use Rattle.vm_begin.specs.Doings.{begins_group};

use crate::begins::begin_arm;
use sim_clock::waits::Waits;
use std::mem;
use tx_heap::heaps::Heap;
use verse_base::places::Place;
use verse_base::refusals::Memory;
use verse_value::runs::Ending;
use vm_frames::threads::Thread;
use vm_running::runners::Runner;
use vm_scheduler::tasks::{Begins, Tasks, Went};
use vm_tasks::slots::Kind;
use vm_tasks::table::begin_group;

/// A group of the running task begins, and its first arm runs. The arms begin at these labels;
/// stuck where there are none.
pub fn group<H: Heap, W: Waits>(
    run: &mut Runner<H>,
    tasks: &mut Tasks<W>,
    kind: Kind,
    place: Place,
    labels: Vec<u32>,
) -> Result<Went, Memory>
    requires there { Goes W.pending (view_of H.state run.old) tasks.old }
    requires free { all_free (frames_with run.old.thread []) ≡ true }
    ensures { IfOk result (λ r. Comes W.pending (begins_group (kind_of kind) place labels.items) r
        (view_of H.state run.old) tasks.old (view_of H.state run.new) tasks.new) }
{
    let mut labels = labels;
    labels.reverse();
    let Some(label) = labels.pop() else {
        return Ok(Went::Over(Ending::Stuck));
    };
    tasks.tree.is_nested();
    begin_group(&mut tasks.tree, tasks.id, run.left);
    tasks.tree.is_nested();
    let thread = mem::replace(&mut run.thread, Thread::empty(tasks.alloc));
    let begins = Begins {
        id: tasks.id,
        thread,
        kind,
        place,
        arms: Vec::new(tasks.alloc),
        number: 0,
        labels,
    };
    begin_arm(run, tasks, begins, label)
}
