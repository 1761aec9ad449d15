//! An arm or a task behind is over.

ghost use Rattle.std.specs.Prelude.{◌≡◌, IfOk, Some, option_map};
ghost use Rattle.verse_value.specs.View.{val_of};
ghost use Rattle.task_tree.specs.Tasks.{IsLive, task_at};
ghost use Rattle.vm_running.specs.Runners.{view_of};
ghost use Rattle.vm_complete.specs.Overs.{IsLonePart, IsGone, IsJoining, PartOver, PartGone};
ghost use Rattle.vm_complete.specs.Overs.{Joined};

use crate::arms::{awaits_arm, give_arm};
use crate::groups::{arm_ends_on, settle_on};
use sim_clock::waits::Waits;
use task_tree::tree::TaskTree;
use tx_heap::heaps::Heap;
use verse_base::refusals::Memory;
use verse_value::runs::Ending;
use verse_value::values::Value;
use vm_frames::threads::Thread;
use vm_running::runners::Runner;
use vm_scheduler::moves::resume;
use vm_scheduler::tasks::{Begins, Tasks, Up, Went};
use vm_tasks::slots::{Arm, Held, Slot};
use vm_tasks::table::{finish, take_up};

/// The running arm or task behind is over with the value, and has no children. The task that has
/// begun it goes on; where it was suspended before, it is an arm of the group at which its parent
/// stands, or the turn is over.
pub fn part_over<H: Heap, W: Waits>(
    run: &mut Runner<H>,
    tasks: &mut Tasks<W>,
    value: Value,
) -> Result<Went, Memory>
    requires { IsLonePart W.pending (view_of H.state run.old) tasks.old }
    ensures { IfOk result (λ r. PartOver W.pending (val_of value) r
        (view_of H.state run.old) tasks.old (view_of H.state run.new) tasks.new) }
{
    tasks.tree.is_nested();
    let number = number_of(&tasks.tree, tasks.id);
    let parent = finish(&mut tasks.tree, tasks.id);
    match tasks.ups.pop() {
        Some(up) => part_gone(run, tasks, up, value),
        None => match parent {
            Some(parent) => join(run, tasks, parent, number, value),
            None => unreachable!(),
        },
    }
}

/// The steps that were left when a live task began.
fn number_of(tree: &TaskTree<Slot<Thread>>, id: usize) -> u64
    requires { IsLive id tree.now }
    ensures { Some result ≡ option_map (λ t. t.item.number) (task_at id tree.now) }
{
    match tree.get(id) {
        Some(slot) => slot.number,
        None => unreachable!(),
    }
}

/// The part is gone, and this one has begun it. The run is over where that one had spawned a task.
fn part_gone<H: Heap, W: Waits>(
    run: &mut Runner<H>,
    tasks: &mut Tasks<W>,
    up: Up,
    value: Value,
) -> Result<Went, Memory>
    requires { IsGone W.pending up (view_of H.state run.old) tasks.old }
    ensures { IfOk result (λ r. PartGone W.pending up (val_of value) r
        (view_of H.state run.old) tasks.old (view_of H.state run.new) tasks.new) }
{
    match up {
        Up::Begins(begins) => {
            let mut begins = begins;
            begins.arms.push(Arm::Did(value))?;
            arm_ends_on(run, tasks, begins)
        }
        Up::Branching(id, thread) => resume(run, tasks, id, thread, Value::Unit),
        Up::Spawning(_, _, _) => Ok(Went::Over(Ending::Stuck)),
    }
}

/// The part is gone, and began in an earlier turn. Where its parent stands at a group of which it
/// was an arm, the arm has given the value. Otherwise it was behind, and the turn is over.
fn join<H: Heap, W: Waits>(
    run: &mut Runner<H>,
    tasks: &mut Tasks<W>,
    parent: usize,
    number: u64,
    value: Value,
) -> Result<Went, Memory>
    requires { IsJoining W.pending parent number (view_of H.state run.old) tasks.old }
    ensures { IfOk result (λ r. Joined W.pending parent number (val_of value) r
        (view_of H.state run.old) tasks.old (view_of H.state run.new) tasks.new) }
{
    tasks.tree.is_nested();
    if !awaits_arm(&tasks.tree, parent, number) {
        return Ok(Went::Down);
    }
    let held = take_up(&mut tasks.tree, parent);
    tasks.tree.is_nested();
    match held {
        Held::AtGroup(thread, group) => {
            let mut begins = Begins {
                id: parent,
                thread,
                kind: group.kind,
                place: group.place,
                arms: group.arms,
                number,
                labels: Vec::new(tasks.alloc),
            };
            give_arm(&mut begins.arms, number, value);
            settle_on(run, tasks, begins)
        }
        Held::ByMachine => unreachable!(),
        Held::Asleep(_, _, _) => unreachable!(),
    }
}
