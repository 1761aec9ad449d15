//! The arm of a group that is the task of a number.

ghost use Rattle.std.specs.Prelude.{◌≡◌, Some, map};
ghost use Rattle.verse_value.specs.View.{val_of};
ghost use Rattle.verse_meaning_state.specs.Waits.{eqn};
ghost use Rattle.verse_code_machine.specs.Ends.{with_did};
ghost use Rattle.task_tree.specs.Tasks.{IsLive, task_at};
ghost use Rattle.vm_tasks.specs.View.{part_of};
ghost use Rattle.vm_complete.specs.Arms.{is_number, run_at, has_run};

use std::mem;
use task_tree::tree::TaskTree;
use verse_value::values::Value;
use vm_frames::threads::Thread;
use vm_tasks::slots::{Arm, Held, Slot};

fn are_same(a: u64, b: u64) -> bool
    ensures { result ≡ eqn b a }
{
    if a == b {
        return true;
    }
    false
}

/// Whether an arm is the task of this number.
fn is_number(arm: &Arm, number: u64) -> bool
    ensures { result ≡ is_number number (part_of arm.now) }
{
    match arm {
        Arm::Runs(n) => are_same(*n, number),
        Arm::Did(_) => false,
    }
}

/// The place of the arm that is the task of this number.
fn run_at(arms: &[Arm], number: u64) -> Option<usize>
    ensures { result ≡ run_at number 0 (map part_of arms.now) }
{
    let mut at: usize = 0;
    'arms: for arm in arms {
        if is_number(arm, number) {
            return Some(at);
        }
        at += 1;
    }
    None
}

/// The arm has given a value, where there is one. Takes no memory.
pub fn give_arm(arms: &mut Vec<Arm>, number: u64, value: Value)
    ensures { map part_of arms.new.items ≡
        with_did number (val_of value) (map part_of arms.old.items) }
{
    let Some(at) = run_at(arms.as_slice(), number) else {
        return;
    };
    let _ = mem::replace(&mut arms[at], Arm::Did(value));
}

/// Whether a task stands at a group that has the arm.
fn has_arm(held: &Held<Thread>, number: u64) -> bool
    ensures { result ≡ has_run number held.now }
{
    match held {
        Held::AtGroup(_, group) => run_at(group.arms.as_slice(), number).is_some(),
        Held::ByMachine | Held::Asleep(_, _, _) => false,
    }
}

/// Whether a live task stands at a group that has the arm.
pub fn awaits_arm(tree: &TaskTree<Slot<Thread>>, id: usize, number: u64) -> bool
    requires { IsLive id tree.now }
    ensures { (t : _) → task_at id tree.now ≡ Some t → result ≡ has_run number t.item.held }
{
    match tree.get(id) {
        Some(slot) => has_arm(&slot.held, number),
        None => unreachable!(),
    }
}
