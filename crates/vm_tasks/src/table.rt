//! The changes of a tree of tasks, and what each is in the machine's definition.

ghost use Rattle.std.specs.Prelude.{◌≡◌, IfSome, IfNone, IfOk, OnErr, Some, None};
ghost use Rattle.std.specs.Prelude.{option_map};
ghost use Rattle.task_tree.specs.Tasks.{IsLive, HasNoChild, task_at, parent_at, without};
ghost use Rattle.task_tree.specs.Nested.{IsTree};
ghost use Rattle.vm_tasks.specs.declared.slots.Root.TheVariants.{Part as APart, Spawned};
ghost use Rattle.vm_tasks.specs.declared.slots.Held.TheVariants.{ByMachine};
ghost use Rattle.vm_tasks.specs.Begun.{Begun, Reheld, Grouped};
ghost use Rattle.vm_tasks.specs.Gone.{IsYounger, NoYounger, Cleared, KeepsEach, LosesFew};
ghost use Rattle.vm_tasks.specs.Ending.{IsAlone, Ended, Wakes};
ghost use Rattle.vm_tasks.specs.Standing.{Branches, BeginsArm, Spawns, SetsDown, BeginsGroup};
ghost use Rattle.vm_tasks.specs.Standing.{CancelsScope, CancelsArms};

use crate::deferring::Deferring;
use crate::gone::Gone;
use crate::slots::{Held, Root, Slot};
use sim_clock::waits::Waits;
use std::mem;
use task_tree::tasks::Role;
use task_tree::tree::TaskTree;
use verse_base::refusals::Memory;

/// Removes the children of a task that began when fewer steps were left, the youngest first, each
/// with all that it encloses: what a frame has begun, by the steps that were left when it began;
/// or the arms of a group, by those that were left when the group began. Takes no memory where
/// there is room for the frames of all tasks, and none where no frame of a task that is cancelled
/// has a deferred block.
pub fn cancel_since<F: Drop + Deferring, W: Waits>(
    tree: &mut TaskTree<Slot<F>>,
    gone: &mut Gone<F, W>,
    id: usize,
    bound: u64,
)
    ensures scope { CancelsScope F.has_blocks W.pending id bound tree.old tree.new gone.old gone.new }
    ensures arms { CancelsArms F.has_blocks W.pending id bound tree.old tree.new gone.old gone.new }
    ensures each { KeepsEach tree.old tree.new gone.old gone.new }
    ensures few { LosesFew F.has_blocks tree.old tree.new gone.old gone.new }
    ensures left { NoYounger tree.new id bound }
    ensures alone { IsAlone tree.new id bound }
    ensures nested { IsTree tree.new }
{
    tree.is_nested();
    clear_since(tree, gone, id, bound);
}

/// A task behind, or the next arm of its group, begins when so many steps are left. Without memory
/// nothing is changed.
pub fn begin_part<F: Drop>(
    tree: &mut TaskTree<Slot<F>>,
    parent: usize,
    number: u64,
) -> Result<usize, Memory>
    requires { IsLive parent tree.old }
    ensures begun { IfOk result (λ id. Begun tree.old tree.new (Some parent) id number APart) }
    ensures branch { IfOk result (λ id. Branches tree.old tree.new parent id number) }
    ensures arm { IfOk result (λ id. BeginsArm tree.old tree.new parent id number) }
    ensures same { OnErr result (tree.new ≡ tree.old) }
{
    tree.is_nested();
    let id = add_part(tree, parent, number)?;
    Ok(id)
}

/// A task of a spawned entry begins when so many steps are left. Without memory nothing is changed.
pub fn begin_spawned<F: Drop>(
    tree: &mut TaskTree<Slot<F>>,
    entry: u32,
    number: u64,
) -> Result<usize, Memory>
    ensures begun { IfOk result (λ id. Begun tree.old tree.new None id number (Spawned entry)) }
    ensures spawned { IfOk result (λ id. Spawns tree.old tree.new id number entry) }
    ensures same { OnErr result (tree.new ≡ tree.old) }
{
    let id = begin_root(tree, Root::Spawned(entry), number)?;
    Ok(id)
}

/// The running task is suspended: its frames are put with it.
pub fn set_down<F: Drop>(tree: &mut TaskTree<Slot<F>>, id: usize, held: Held<F>)
    requires { IsLive id tree.old }
    ensures put { Reheld tree.old tree.new id held }
    ensures down { SetsDown tree.old tree.new id held }
{
    tree.is_nested();
    put(tree, id, held);
}

/// A group of the running task begins when so many steps are left.
pub fn begin_group<F: Drop>(tree: &mut TaskTree<Slot<F>>, id: usize, left: u64)
    requires { IsLive id tree.old }
    ensures marked { Grouped tree.old tree.new id left }
    ensures group { BeginsGroup tree.old tree.new id left }
{
    tree.is_nested();
    mark_group(tree, id, left);
}

/// A live task without children is over. Its parent; None exactly where it has none.
pub fn finish<F: Drop>(tree: &mut TaskTree<Slot<F>>, id: usize) -> Option<usize>
    requires live { IsLive id tree.old }
    requires childless { HasNoChild id tree.old }
    ensures parent { result ≡ parent_at id tree.old }
    ensures ended { Ended tree.old tree.new id }
    ensures left { tree.new ≡ without id tree.old }
{
    tree.is_nested();
    let parent = tree.parent(id);
    let _ = tree.finish(id);
    tree.is_nested();
    parent
}

/// The machine takes the frames of a live task whose wait is due next, or those of a parent that
/// goes on with its group.
pub fn take_up<F: Drop>(tree: &mut TaskTree<Slot<F>>, id: usize) -> Held<F>
    requires { IsLive id tree.old }
    ensures taken { Reheld tree.old tree.new id ByMachine }
    ensures value { option_map (λ t. t.item.held) (task_at id tree.old) ≡ Some result }
    ensures wakes { Wakes tree.old tree.new id result }
{
    tree.is_nested();
    take(tree, id)
}

/// The machine takes the frames of a live task.
fn take<F: Drop>(tree: &mut TaskTree<Slot<F>>, id: usize) -> Held<F>
    requires { IsLive id tree.old }
    ensures taken { Reheld tree.old tree.new id ByMachine }
    ensures value { option_map (λ t. t.item.held) (task_at id tree.old) ≡ Some result }
{
    match tree.get_mut(id) {
        Some(slot) => mem::replace(&mut slot.held, Held::ByMachine),
        None => unreachable!(),
    }
}

/// A task of its own begins when so many steps are left. Without memory nothing is changed.
pub fn begin_root<F: Drop>(
    tree: &mut TaskTree<Slot<F>>,
    root: Root,
    number: u64,
) -> Result<usize, Memory>
    ensures begun { IfOk result (λ id. Begun tree.old tree.new None id number root) }
    ensures same { OnErr result (tree.new ≡ tree.old) }
{
    match tree.add(None, Role::Root, new_slot(number, root)) {
        Ok(id) => Ok(id),
        Err((memory, _slot)) => Err(memory),
    }
}

fn clear_since<F: Drop + Deferring, W: Waits>(
    tree: &mut TaskTree<Slot<F>>,
    gone: &mut Gone<F, W>,
    id: usize,
    bound: u64,
)
    ensures cleared { Cleared F.has_blocks W.pending id bound tree.old tree.new gone.old gone.new }
    ensures left { NoYounger tree.new id bound }
    ensures nested { IsTree tree.new }
{
    'children: while let Some(child) = youngest_since(tree, id, bound) {
        tree.cancel(child, gone);
    }
}

/// The youngest child of a task, where it began when fewer steps were left.
fn youngest_since<F>(tree: &TaskTree<Slot<F>>, id: usize, bound: u64) -> Option<usize>
    ensures some { IfSome result (λ child. IsYounger tree.now id bound child) }
    ensures none { IfNone result (NoYounger tree.now id bound) }
    ensures nested { IsTree tree.now }
{
    let child = tree.youngest_child(id)?;
    let slot = tree.get(child)?;
    if slot.number < bound {
        Some(child)
    } else {
        None
    }
}

fn new_slot<F>(number: u64, root: Root) -> Slot<F>
    ensures number { result.number ≡ number }
    ensures since { result.since ≡ number }
    ensures root { result.root ≡ root }
    ensures held { result.held ≡ ByMachine }
{
    Slot {
        number,
        since: number,
        root,
        held: Held::ByMachine,
    }
}

fn add_part<F: Drop>(
    tree: &mut TaskTree<Slot<F>>,
    parent: usize,
    number: u64,
) -> Result<usize, Memory>
    requires { IsLive parent tree.old }
    ensures begun { IfOk result (λ id. Begun tree.old tree.new (Some parent) id number APart) }
    ensures same { OnErr result (tree.new ≡ tree.old) }
{
    match tree.add(Some(parent), Role::Behind(0), new_slot(number, Root::Part)) {
        Ok(id) => Ok(id),
        Err((memory, _slot)) => Err(memory),
    }
}

fn put<F: Drop>(tree: &mut TaskTree<Slot<F>>, id: usize, held: Held<F>)
    requires { IsLive id tree.old }
    ensures { Reheld tree.old tree.new id held }
{
    match tree.get_mut(id) {
        Some(slot) => slot.held = held,
        None => unreachable!(),
    }
}

fn mark_group<F: Drop>(tree: &mut TaskTree<Slot<F>>, id: usize, left: u64)
    requires { IsLive id tree.old }
    ensures { Grouped tree.old tree.new id left }
{
    match tree.get_mut(id) {
        Some(slot) => slot.since = left,
        None => unreachable!(),
    }
}
