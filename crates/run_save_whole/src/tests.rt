//! What a task is to its parent.

ghost use Rattle.std.specs.Prelude.{◌≡◌, None, Some, map, slice_get};
ghost use Rattle.run_save_shots.specs.View.{task_of};
ghost use Rattle.run_save_shots.specs.Fitting.{is_root};
ghost use Rattle.run_save_format.specs.Whole.{is_later, is_group, role_breaks, child_breaks};

use run_save_shots::shots::{RestShot, TaskShot};
use task_tree::tasks::Role;

/// Whether the parent does not stand before the place.
pub fn is_later(at: usize, parent: Option<u32>) -> bool
    ensures { result ≡ is_later at parent }
{
    match parent {
        Some(parent) => at <= parent as usize,
        None => false,
    }
}

/// Whether it is Main.
pub fn is_main(task: &TaskShot) -> bool
    ensures { result ≡ is_root None (task_of task.now) }
{
    task.parent.is_none() && task.root.is_none()
}

fn is_group(task: &TaskShot) -> bool
    ensures { result ≡ is_group (Some (task_of task.now)) }
{
    match &task.rest {
        RestShot::Leaf(_, _) => false,
        RestShot::Group(_) => true,
    }
}

// Of a task with this parent.
fn role_breaks(tasks: &[TaskShot], parent: u32, role: Role) -> bool
    ensures { result ≡ role_breaks (slice_get (map task_of tasks.now) parent) role }
{
    match tasks.get(parent as usize) {
        Some(parent) => match role {
            Role::Root => false,
            Role::Arm(_) => !is_group(parent),
            Role::Behind(depth) => parent.frames.len() <= depth as usize,
        },
        None => !matches!(role, Role::Root),
    }
}

/// Whether it is an arm of a task that is at no group, or behind a frame that there is not.
pub fn child_breaks(tasks: &[TaskShot], parent: Option<u32>, role: Role) -> bool
    ensures { result ≡ child_breaks (map task_of tasks.now) parent role }
{
    match parent {
        Some(parent) => role_breaks(tasks, parent, role),
        None => false,
    }
}
