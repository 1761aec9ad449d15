//! How a task stands to its parent.

ghost use Rattle.std.specs.Prelude.{◌≡◌, ◌≢◌, [], List, map, IfOk};
ghost use Rattle.verse_code_machine.specs.Tasks.{Frame};
ghost use Rattle.vm_frames.specs.Framed.{Framed};
ghost use Rattle.vm_frames.specs.Machine.{frames_with};
ghost use Rattle.vm_tasks.specs.View.{role_of, part_of, held_of, slot_of};
ghost use Rattle.run_save_shots.specs.Keeping as keeping;
ghost use Rattle.run_save_shots.specs.Keeping.{arm_of, arm_or};
ghost use Rattle.vm_shot_frames.specs.Frames.{depth_among};
ghost use Rattle.vm_shot_laws.specs.Tree.{role_under, role_beneath, held_by};
ghost use Rattle.vm_shot_tasks.specs.Holding.{AreFrames, HasFrames, AllHaveFrames};

use task_tree::tasks::Role;
use task_tree::tree::TaskTree;
use verse_base::refusals::Memory;
use vm_frames::threads::Thread;
use vm_shot_frames::frames::depth_at;
use vm_tasks::readings::place_of;
use vm_tasks::slots::{Group, Held, Root, Slot};

/// The number of a spawned task's entry.
pub(crate) fn entry_of(root: Root) -> Option<u32>
    ensures { result ≡ keeping.entry_of (role_of root) }
{
    match root {
        Root::Part => None,
        Root::Main => None,
        Root::Spawned(entry) => Some(entry),
    }
}

/// The role of the child of a number, beneath this parent, if any. Memory is wanting too where it
/// is an arm with more than 4294967295 before it.
pub(crate) fn role_in(
    tree: &TaskTree<Slot<Thread>>,
    parent: Option<usize>,
    number: u64,
) -> Result<Role, Memory>
    requires { AllHaveFrames tree.now }
    ensures { IfOk result (λ r. (frames : List Framed → Frame × List Frame) → AreFrames frames →
        r ≡ role_beneath (held_by (slot_of frames) parent tree.now) number) }
{
    let Some(id) = parent else {
        return Ok(Role::Root);
    };
    match tree.get(id) {
        Some(slot) => role_by(&slot.held, number),
        None => Ok(Role::Root),
    }
}

fn role_by(held: &Held<Thread>, number: u64) -> Result<Role, Memory>
    requires { HasFrames held.now }
    ensures { IfOk result (λ r. (frames : List Framed → Frame × List Frame) → AreFrames frames →
        r ≡ role_under (held_of frames held.now) number) }
{
    match held {
        Held::ByMachine => Ok(Role::Root),
        Held::Asleep(thread, _, _) => Ok(Role::Behind(depth_at(thread, number))),
        Held::AtGroup(thread, group) => role_at(thread, group, number),
    }
}

/// The role beneath a task that stands at a group.
#[tactic(auto, using(crate::proofs::Rows::arms_are))]
fn role_at(thread: &Thread, group: &Group, number: u64) -> Result<Role, Memory>
    requires { thread.now ≢ [] }
    ensures { IfOk result (λ r. r ≡ arm_or (arm_of number (map part_of group.now.arms.items))
        (depth_among number (frames_with thread.now []))) }
{
    let Some(place) = place_of(group, number) else {
        return Ok(Role::Behind(depth_at(thread, number)));
    };
    match u32::try_from(place) {
        Ok(place) => Ok(Role::Arm(place)),
        Err(_) => Err(Memory),
    }
}
