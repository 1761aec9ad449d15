//! What is kept of the tasks of a tree.

ghost use Rattle.std.specs.Prelude.{◌≡◌, List, Some, map, option_map, IfOk};
ghost use Rattle.task_tree.specs.Tasks.{Task, IsLive, task_at};
ghost use Rattle.verse_code_machine.specs.Tasks.{Frame};
ghost use Rattle.vm_frames.specs.Framed.{Framed};
ghost use Rattle.vm_tasks.specs.declared.slots.Slot.{Slot};
ghost use Rattle.vm_tasks.specs.View.{slot_of};
ghost use Rattle.run_save_shots.specs.View.{task_of};
ghost use Rattle.vm_shot_laws.specs.Tree.{kept_task, kept_tasks, parent_place};
ghost use Rattle.vm_shot_tasks.specs.Holding.{AreFrames, AllHaveFrames, ids_of};

use crate::places::{Places, places_in};
use crate::rests::{held_shot, rest_shot};
use crate::roles::{entry_of, role_in};
use run_save_shots::shots::TaskShot;
use std::alloc::Global;
use task_tree::tree::TaskTree;
use verse_base::refusals::Memory;
use vm_frames::threads::Thread;
use vm_tasks::readings::slot_at;
use vm_tasks::slots::Slot;

/// What is kept of all tasks, each before those that it encloses, and siblings in the order in
/// which they began. Memory is wanting too where there are more than 4294967296 tasks, or as many
/// arms of a group.
pub fn tasks_shot(alloc: Global, tree: &TaskTree<Slot<Thread>>) -> Result<Vec<TaskShot>, Memory>
    requires { AllHaveFrames tree.now }
    ensures { IfOk result (λ ts. (frames : List Framed → Frame × List Frame) → AreFrames frames →
        map task_of ts.items ≡ kept_tasks (slot_of frames) tree.now) }
{
    tree.is_nested();
    let places = places_in(alloc, tree)?;
    let mut tasks = Vec::new(alloc);
    let count = places.len();
    'tasks: for place in 0..count {
        let Some(id) = places.id_at(place) else {
            unreachable!()
        };
        let task = task_shot(alloc, tree, &places, id)?;
        tasks.push(task)?;
    }
    Ok(tasks)
}

/// What is kept of a live task.
fn task_shot(
    alloc: Global,
    tree: &TaskTree<Slot<Thread>>,
    places: &Places,
    id: usize,
) -> Result<TaskShot, Memory>
    requires frames { AllHaveFrames tree.now }
    requires live { IsLive id tree.now }
    requires places { places.now ≡ ids_of tree.now }
    ensures { IfOk result (λ t. (frames : List Framed → Frame × List Frame) → AreFrames frames →
        option_map (kept_task (slot_of frames) tree.now) (task_at id tree.now) ≡
        Some (task_of t)) }
{
    let slot = slot_at(tree, id);
    let parent = tree.parent(id);
    let place = place_under(places, parent)?;
    let role = role_in(tree, parent, slot.number)?;
    let root = entry_of(slot.root);
    let frames = held_shot(alloc, &slot.held)?;
    let rest = rest_shot(alloc, &slot.held)?;
    Ok(TaskShot {
        parent: place,
        role,
        root,
        frames,
        rest,
    })
}

/// Where a parent stands.
fn place_under(places: &Places, parent: Option<usize>) -> Result<Option<u32>, Memory>
    ensures { IfOk result (λ p. (tasks : List (Task (Slot (List Framed)))) →
        places.now ≡ ids_of tasks → p ≡ parent_place parent tasks) }
{
    let Some(id) = parent else {
        return Ok(None);
    };
    let Some(place) = places.place_of(id) else {
        return Ok(None);
    };
    match u32::try_from(place) {
        Ok(place) => Ok(Some(place)),
        Err(_) => Err(Memory),
    }
}
