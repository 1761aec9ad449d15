//! What a saved run keeps of each task. Number, `since` and root are fields of its slot. Nothing
//! here takes memory.

ghost use Rattle.std.specs.Prelude.{◌≡◌, Some, option_copied, option_map};
ghost use Rattle.task_tree.specs.Tasks.{IsLive, task_at};
ghost use Rattle.vm_tasks.specs.Reading.{frames_at, wait_at, group_at, is_child, arm_place};

use crate::slots::{Arm, Group, Held, Slot};
use sim_clock::waits::WaitKind;
use task_tree::tree::TaskTree;

/// What the tree keeps of a live task.
pub fn slot_at<F>(tree: &TaskTree<Slot<F>>, id: usize) -> &Slot<F>
    requires { IsLive id tree.now }
    ensures { option_map (λ t. t.item) (task_at id tree.now) ≡ Some result.now }
{
    match tree.get(id) {
        Some(slot) => slot,
        None => unreachable!(),
    }
}

/// The frames of a task that is suspended. None where the machine has them.
pub fn frames_of<F>(slot: &Slot<F>) -> Option<&F>
    ensures { option_copied result ≡ frames_at slot.now.held }
{
    match &slot.held {
        Held::ByMachine => None,
        Held::Asleep(frames, _, _) => Some(frames),
        Held::AtGroup(frames, _) => Some(frames),
    }
}

/// The number and the kind of the wait. None where the task isn't asleep.
pub fn wait_of<F>(slot: &Slot<F>) -> Option<(u64, WaitKind)>
    ensures { result ≡ wait_at slot.now.held }
{
    match &slot.held {
        Held::Asleep(_, number, kind) => Some((*number, *kind)),
        _ => None,
    }
}

/// The group at which the task stands, if any.
pub fn group_of<F>(slot: &Slot<F>) -> Option<&Group>
    ensures { option_copied result ≡ group_at slot.now.held }
{
    match &slot.held {
        Held::AtGroup(_, group) => Some(group),
        _ => None,
    }
}

/// The place, among the arms of a group, of the one that is the child of this number. None where
/// the child is no arm of the group.
pub fn place_of(group: &Group, number: u64) -> Option<usize>
    ensures { result ≡ arm_place number group.now.arms.items }
{
    let arms = group.arms.as_slice();
    let mut at = 0;
    'arms: while at < arms.len() {
        if is_its_child(&arms[at], number) {
            return Some(at);
        }
        at += 1;
    }
    None
}

fn is_its_child(arm: &Arm, number: u64) -> bool
    ensures { result ≡ is_child number arm.now }
{
    match arm {
        Arm::Did(_) => false,
        Arm::Runs(child) => *child == number,
    }
}
