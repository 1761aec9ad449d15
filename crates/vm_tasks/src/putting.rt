//! Tasks are put into the tree as they stood when a run was saved, and none of them begins: each
//! parent before its children, and siblings in the order in which they began. Their waits are added
//! apart.

ghost use Rattle.std.specs.Prelude.{◌≡◌, IfOk, OnErr};
ghost use Rattle.task_tree.specs.Tasks.{IsLive};
ghost use Rattle.vm_tasks.specs.Putting.{PutRoot, PutPart};

use crate::slots::Slot;
use task_tree::tasks::Role;
use task_tree::tree::TaskTree;
use verse_base::refusals::Memory;

/// Puts a task of its own behind all others, and answers its number in the tree. Without memory
/// nothing is changed.
pub fn put_root<F: Drop>(tree: &mut TaskTree<Slot<F>>, slot: Slot<F>) -> Result<usize, Memory>
    ensures put { IfOk result (λ id. PutRoot tree.old tree.new id slot) }
    ensures same { OnErr result (tree.new ≡ tree.old) }
{
    match tree.add(None, Role::Root, slot) {
        Ok(id) => Ok(id),
        Err((memory, _slot)) => Err(memory),
    }
}

/// Puts a part behind the other children of a live task, and answers its number in the tree.
/// Without memory nothing is changed.
pub fn put_part<F: Drop>(
    tree: &mut TaskTree<Slot<F>>,
    parent: usize,
    slot: Slot<F>,
) -> Result<usize, Memory>
    requires { IsLive parent tree.old }
    ensures put { IfOk result (λ id. PutPart tree.old tree.new parent id slot) }
    ensures same { OnErr result (tree.new ≡ tree.old) }
{
    match tree.add(Some(parent), Role::Behind(0), slot) {
        Ok(id) => Ok(id),
        Err((memory, _slot)) => Err(memory),
    }
}
