//! Suspended tasks are put into a tree.

ghost use Rattle.std.specs.Prelude.{◌≡◌, ◌++◌, map, IfOk, OnOk};
ghost use Rattle.verse_code.specs.Validity.{Valid};
ghost use Rattle.run_save_shots.specs.Kept.{Kept};
ghost use Rattle.run_save_shots.specs.View.{task_of};
ghost use Rattle.run_save_numbers.specs.View.{numbers_of};
ghost use Rattle.run_save_slots.specs.Slots.{Suits};
ghost use Rattle.run_save_trees.specs.Restoring.{HasParent, IsPut, WithTask};
ghost use Rattle.run_save_trees.specs.Laws.{StandsFor};
ghost use Rattle.run_save_machine.specs.Putting.{waits_with, AreOf};

use run_save_numbers::tables::TaskNumbers;
use run_save_shots::shots::TaskShot;
use run_save_slots::slots::suspended;
use run_save_trees::tables::Restored;
use sim_clock::waits::{Wait, WaitKind};
use std::alloc::Global;
use task_tree::tree::TaskTree;
use verse_base::refusals::Memory;
use verse_code::codes::Code;
use vm_frames::threads::Thread;
use vm_tasks::putting::{put_part, put_root};
use vm_tasks::readings::wait_of;
use vm_tasks::slots::Slot;

/// Behind all others, or in its parent, by the numbers of the tasks in the tree.
fn put(
    tree: &mut TaskTree<Slot<Thread>>,
    ids: &[usize],
    parent: Option<u32>,
    slot: Slot<Thread>,
) -> Result<usize, Memory>
    requires { HasParent parent ids.now tree.old }
    ensures { IfOk result (λ id. IsPut parent ids.now tree.old tree.new id slot) }
{
    match parent {
        None => put_root(tree, slot),
        Some(parent) => put_part(tree, ids[parent as usize], slot),
    }
}

/// The wait of a task, if it has one.
fn add_wait(waits: &mut Vec<Wait>, id: usize, wait: Option<(u64, WaitKind)>) -> Result<(), Memory>
    ensures { OnOk result (waits.new.items ≡ waits.old.items ++ waits_with id wait) }
{
    if let Some((number, kind)) = wait {
        waits.push(Wait {
            number,
            task: id,
            kind,
        })?;
    }
    Ok(())
}

/// One task more.
fn put_one(
    alloc: Global,
    code: &Code,
    restored: &mut Restored,
    task: TaskShot,
    numbers: &TaskNumbers,
) -> Result<(), Memory>
    requires suits { Suits (task_of task) (numbers_of numbers.now) }
    requires parent { HasParent task.parent restored.old.ids.items restored.old.tree }
    ensures { OnOk result (WithTask code.now (task_of task) (numbers_of numbers.now) restored.old
        restored.new) }
{
    restored.tree.is_nested();
    let parent = task.parent;
    let slot = suspended(alloc, code, task, numbers)?;
    let wait = wait_of(&slot);
    let id = put(&mut restored.tree, &restored.ids, parent, slot)?;
    add_wait(&mut restored.waits, id, wait)?;
    restored.ids.push(id)?;
    Ok(())
}

/// All tasks of a shot, with the numbers that they have there.
pub(crate) fn put_all(
    alloc: Global,
    code: &Code,
    tasks: Vec<TaskShot>,
    numbers: &[TaskNumbers],
) -> Result<Restored, Memory>
    requires valid { Valid code.now }
    requires shot { (s : Kept) × AreOf code.now s (map task_of tasks.items)
        (map numbers_of numbers.now) }
    ensures { IfOk result (λ r. (s : Kept) → AreOf code.now s (map task_of tasks.items)
        (map numbers_of numbers.now) → StandsFor code.now s r) }
{
    let mut tasks = tasks;
    tasks.reverse();
    let mut restored = Restored {
        tree: TaskTree::new(alloc),
        ids: Vec::new(alloc),
        waits: Vec::new(alloc),
    };
    let mut at = 0;
    'tasks: while let Some(task) = tasks.pop() {
        put_one(alloc, code, &mut restored, task, &numbers[at])?;
        at += 1;
    }
    Ok(restored)
}
