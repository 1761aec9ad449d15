//! The first child of each kind that a task has.

ghost use Rattle.std.specs.Prelude.{◌≡◌, ◌+◌, ◌*◌, ◌≤◌, suc, length, map, replicate, IfOk};
ghost use Rattle.verse_base.specs.declared.limits.TheConstants.{MOST_STEPS};
ghost use Rattle.run_save_shots.specs.View.{task_of, shot_of};
ghost use Rattle.run_save_shots.specs.Fitting.{arms_of};
ghost use Rattle.run_save_numbers.specs.Marking.{marked, no_marks, with_child, with_children};
ghost use Rattle.run_save_numbers.specs.View.{numbers_of};

use crate::tables::TaskNumbers;
use run_save_shots::shots::{RestShot, Shot, TaskShot};
use std::alloc::Global;
use task_tree::tasks::Role;
use verse_base::refusals::Memory;

/// A number so many times.
fn fill(alloc: Global, count: usize, value: u64) -> Result<Vec<u64>, Memory>
    ensures { IfOk result (λ v. v.items ≡ replicate count value) }
{
    let mut items = Vec::new(alloc);
    'items: for _i in 0..count {
        items.push(value)?;
    }
    Ok(items)
}

fn arm_count(task: &TaskShot) -> usize
    ensures { result ≡ length (arms_of (task_of task.now).rest) }
{
    match &task.rest {
        RestShot::Leaf(_, _) => 0,
        RestShot::Group(arms) => arms.len(),
    }
}

/// Before any child is seen.
fn no_marks(alloc: Global, task: &TaskShot, left: u64) -> Result<TaskNumbers, Memory>
    ensures { IfOk result (λ m. numbers_of m ≡ no_marks left (task_of task.now)) }
{
    let borns = fill(alloc, task.frames.len(), left)?;
    let arms = fill(alloc, arm_count(task), left)?;
    Ok(TaskNumbers {
        own: left,
        borns,
        above: left,
        arms,
    })
}

fn unmarked(alloc: Global, tasks: &[TaskShot], left: u64) -> Result<Vec<TaskNumbers>, Memory>
    ensures { IfOk result (λ a. map numbers_of a.items ≡
        map (no_marks left) (map task_of tasks.now)) }
{
    let mut all = Vec::new(alloc);
    'tasks: for task in tasks {
        all.push(no_marks(alloc, task, left)?)?;
    }
    Ok(all)
}

/// A child of this role is seen.
fn mark(marks: &mut TaskNumbers, role: Role, number: u64)
    ensures { numbers_of marks.new ≡ marked number role (numbers_of marks.old) }
{
    match role {
        Role::Root => {}
        Role::Arm(place) => mark_arm(marks, place as usize, number),
        Role::Behind(depth) => mark_behind(marks, depth as usize, number),
    }
}

fn mark_arm(marks: &mut TaskNumbers, place: usize, number: u64)
    ensures { numbers_of marks.new ≡ marked number (Role.Arm place) (numbers_of marks.old) }
{
    marks.above = number;
    if place < marks.arms.len() {
        marks.arms[place] = number;
    }
}

fn mark_behind(marks: &mut TaskNumbers, depth: usize, number: u64)
    ensures { numbers_of marks.new ≡ marked number (Role.Behind depth) (numbers_of marks.old) }
{
    if depth < marks.borns.len() {
        marks.borns[depth] = number;
    } else {
        marks.above = number;
    }
}

fn mark_at(all: &mut [TaskNumbers], parent: usize, role: Role, number: u64)
    ensures { map numbers_of all.new ≡
        with_child (map numbers_of all.old) (Some parent) role number }
{
    if parent < all.len() {
        mark(&mut all[parent], role, number);
    }
}

fn add_child(all: &mut [TaskNumbers], parent: Option<u32>, role: Role, number: u64)
    ensures { map numbers_of all.new ≡ with_child (map numbers_of all.old) parent role number }
{
    if let Some(parent) = parent {
        mark_at(all, parent as usize, role, number);
    }
}

/// The number of the first of so many tasks with which the list ends.
#[tactic(auto, using(crate::proofs::Limits::few))]
pub fn number(shot: &Shot, count: usize) -> u64
    requires steps { shot.now.left + shot.now.spent ≤ MOST_STEPS }
    requires few { count ≤ shot.now.spent }
    ensures { result ≡ shot.entry.now.left + suc shot.entry.now.spent * count }
{
    shot.left + (shot.spent + 1) * count as u64
}

/// The children of all tasks.
pub fn marks(alloc: Global, shot: &Shot) -> Result<Vec<TaskNumbers>, Memory>
    requires steps { shot.now.left + shot.now.spent ≤ MOST_STEPS }
    requires few { length shot.now.tasks.items ≤ shot.now.spent }
    ensures { IfOk result (λ a. map numbers_of a.items ≡ with_children (shot_of shot.entry.now)
        (map (no_marks shot.entry.now.left) (shot_of shot.entry.now).tasks)
        (shot_of shot.entry.now).tasks) }
{
    let tasks = shot.tasks.as_slice();
    let mut all = unmarked(alloc, tasks, shot.left)?;
    let mut at = tasks.len();
    'tasks: while at > 0 {
        at -= 1;
        let number = number(shot, tasks.len() - at);
        add_child(&mut all, tasks[at].parent, tasks[at].role, number);
    }
    Ok(all)
}
