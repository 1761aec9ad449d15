//! Which arms of a group run.

ghost use Rattle.std.specs.Prelude.{◌≡◌, Some, IfOk, map, length};
ghost use Rattle.run_save_shots.specs.View.{task_of};
ghost use Rattle.run_save_shots.specs.Fitting.{arms_of};
ghost use Rattle.run_save_whole.specs.Tallies.{marked, with_arm, with_arms, no_marks, all_marks};
ghost use Rattle.run_save_whole.specs.View.{marks_of};

use crate::fills::fill;
use crate::roots::count;
use run_save_shots::shots::{RestShot, TaskShot};
use std::alloc::{AllocError, Global};
use task_tree::tasks::Role;

/// The children of a task that are arms.
#[derive(Drop)]
pub struct Arms {
    /// How many there are of each place, none, one or more.
    pub counts: Vec<u8>,
    /// Whether there is one of another place.
    pub beyond: bool,
}

fn arm_count(task: &TaskShot) -> usize
    ensures { result ≡ length (arms_of (task_of task.now).rest) }
{
    match &task.rest {
        RestShot::Leaf(_, _) => 0,
        RestShot::Group(arms) => arms.len(),
    }
}

fn no_arms(alloc: Global, task: &TaskShot) -> Result<Arms, AllocError>
    ensures { IfOk result (λ a. marks_of a ≡ no_marks (task_of task.now)) }
{
    let counts = fill(alloc, arm_count(task), 0u8)?;
    Ok(Arms {
        counts,
        beyond: false,
    })
}

fn mark(arms: &mut Arms, place: usize)
    ensures { marks_of arms.new ≡ marked (marks_of arms.old) place }
{
    if place < arms.counts.len() {
        count(&mut arms.counts, place);
    } else {
        arms.beyond = true;
    }
}

fn mark_at(all: &mut [Arms], parent: usize, place: u32)
    ensures { map marks_of all.new ≡
        with_arm (map marks_of all.old) (Some parent) (Role.Arm place) }
{
    if parent < all.len() {
        mark(&mut all[parent], place as usize);
    }
}

fn add_arm(all: &mut [Arms], parent: Option<u32>, role: Role)
    ensures { map marks_of all.new ≡ with_arm (map marks_of all.old) parent role }
{
    if let (Some(parent), Role::Arm(place)) = (parent, role) {
        mark_at(all, parent as usize, place);
    }
}

fn unmarked(alloc: Global, tasks: &[TaskShot]) -> Result<Vec<Arms>, AllocError>
    ensures { IfOk result (λ a. map marks_of a.items ≡ map no_marks (map task_of tasks.now)) }
{
    let mut all = Vec::new(alloc);
    'tasks: for task in tasks {
        all.push(no_arms(alloc, task)?)?;
    }
    Ok(all)
}

/// The arms of each task.
pub fn all_arms(alloc: Global, tasks: &[TaskShot]) -> Result<Vec<Arms>, AllocError>
    ensures { IfOk result (λ a. map marks_of a.items ≡ all_marks (map task_of tasks.now)) }
{
    let mut all = unmarked(alloc, tasks)?;
    'tasks: for task in tasks {
        add_arm(&mut all, task.parent, task.role);
    }
    Ok(all)
}
