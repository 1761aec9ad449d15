//! Calls that are made where their conditions hold.

ghost use Rattle.std.specs.Prelude.{◌≡◌, true};
ghost use Rattle.task_tree.specs.Tasks.{IsLive, IsPossible, suits};

use task_tree::tasks::{Finished, Role, Visit};
use task_tree::tree::TaskTree;
use verse_base::refusals::Memory;

/// None where there is no such parent, or the role does not fit it.
pub fn add(
    tree: &mut TaskTree<u64>,
    parent: Option<usize>,
    role: Role,
    item: u64,
) -> Result<Option<usize>, Memory> {
    if !fits(parent, role) || !is_possible(tree, parent) {
        return Ok(None);
    }
    match tree.add(parent, role, item) {
        Ok(number) => Ok(Some(number)),
        Err((memory, _)) => Err(memory),
    }
}

fn fits(parent: Option<usize>, role: Role) -> bool
    ensures { result ≡ suits parent role }
{
    match (parent, role) {
        (None, Role::Root) => true,
        (Some(_), Role::Arm(_)) => true,
        (Some(_), Role::Behind(_)) => true,
        _ => false,
    }
}

fn is_possible(tree: &TaskTree<u64>, parent: Option<usize>) -> bool
    ensures { result ≡ true → IsPossible parent tree.now }
{
    match parent {
        Some(id) => tree.is_live(id),
        None => true,
    }
}

/// None where there is no such task, or it has children.
pub fn finish(tree: &mut TaskTree<u64>, id: usize) -> Option<Finished<u64>> {
    if !tree.is_live(id) || tree.has_children(id) {
        return None;
    }
    Some(tree.finish(id))
}

/// Whether there is such an arm.
pub fn leave_behind(tree: &mut TaskTree<u64>, id: usize, depth: u32) -> bool {
    if !tree.is_live(id) {
        return false;
    }
    match tree.role(id) {
        Role::Arm(_) => {
            tree.leave_behind(id, depth);
            true
        }
        _ => false,
    }
}

/// Whether there is such a task.
pub fn cancel<V: Visit<u64>>(tree: &mut TaskTree<u64>, id: usize, visit: &mut V) -> bool {
    if !tree.is_live(id) {
        return false;
    }
    tree.cancel(id, visit);
    true
}

/// Whether there is such a task.
pub fn cancel_behind<V: Visit<u64>>(
    tree: &mut TaskTree<u64>,
    id: usize,
    depth: u32,
    visit: &mut V,
) -> bool {
    if !tree.is_live(id) {
        return false;
    }
    tree.cancel_behind(id, depth, visit);
    true
}

/// The role of a task, where it is there.
pub fn role(tree: &TaskTree<u64>, id: usize) -> Option<Role> {
    if tree.is_live(id) {
        Some(tree.role(id))
    } else {
        None
    }
}
