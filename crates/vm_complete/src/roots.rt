//! Main or a spawned task is over.

ghost use Rattle.std.specs.Prelude.{◌≡◌, IfOk, Some, option_map};
ghost use Rattle.verse_value.specs.View.{val_of};
ghost use Rattle.task_tree.specs.Tasks.{IsLive, task_at};
ghost use Rattle.vm_running.specs.Runners.{view_of};
ghost use Rattle.vm_tasks.specs.View.{role_of};
ghost use Rattle.vm_complete.specs.Overs.{is_part, IsLoneRoot, IsOffRoot, IsGoneRoot, RootOver};
ghost use Rattle.vm_complete.specs.Overs.{RootLeaves, RootGone};

use sim_clock::waits::Waits;
use task_tree::tree::TaskTree;
use tx_heap::heaps::Heap;
use verse_base::refusals::Memory;
use verse_value::runs::Ending;
use verse_value::values::Value;
use vm_frames::threads::Thread;
use vm_running::runners::Runner;
use vm_scheduler::moves::resume;
use vm_scheduler::tasks::{Tasks, Up, Went};
use vm_suspend::results::give;
use vm_tasks::slots::{Root, Slot};
use vm_tasks::table::finish;

/// Whether a live task is an arm or a task behind.
pub fn is_part(tree: &TaskTree<Slot<Thread>>, id: usize) -> bool
    requires { IsLive id tree.now }
    ensures { (t : _) → task_at id tree.now ≡ Some t → result ≡ is_part (role_of t.item.root) }
{
    match root_of(tree, id) {
        Root::Part => true,
        Root::Main => false,
        Root::Spawned(_) => false,
    }
}

/// Whether a live task is one of its own, and of which entry.
fn root_of(tree: &TaskTree<Slot<Thread>>, id: usize) -> Root
    requires { IsLive id tree.now }
    ensures { Some result ≡ option_map (λ t. t.item.root) (task_at id tree.now) }
{
    match tree.get(id) {
        Some(slot) => slot.root,
        None => unreachable!(),
    }
}

/// The running task is one of its own, is over with the value, and has no children. It goes from
/// the tree, and those that await a spawned task are woken.
pub fn root_over<H: Heap, W: Waits>(
    run: &mut Runner<H>,
    tasks: &mut Tasks<W>,
    value: Value,
) -> Result<Went, Memory>
    requires { IsLoneRoot W.pending (view_of H.state run.old) tasks.old }
    ensures { IfOk result (λ r. RootOver W.pending (val_of value) r
        (view_of H.state run.old) tasks.old (view_of H.state run.new) tasks.new) }
{
    tasks.tree.is_nested();
    let root = root_of(&tasks.tree, tasks.id);
    let _ = finish(&mut tasks.tree, tasks.id);
    match root {
        Root::Spawned(entry) => {
            give(run, tasks, entry, value);
            leave_root(run, tasks)
        }
        Root::Main => leave_root(run, tasks),
        Root::Part => leave_root(run, tasks),
    }
}

/// The task is gone: the one that has spawned it goes on; where it was suspended before, the turn
/// is over.
fn leave_root<H: Heap, W: Waits>(run: &mut Runner<H>, tasks: &mut Tasks<W>) -> Result<Went, Memory>
    requires { IsOffRoot W.pending (view_of H.state run.old) tasks.old }
    ensures { IfOk result (λ r. RootLeaves W.pending r (view_of H.state run.old) tasks.old
        (view_of H.state run.new) tasks.new) }
{
    match tasks.ups.pop() {
        Some(up) => root_gone(run, tasks, up),
        None => Ok(Went::Down),
    }
}

/// The task is gone, and this one has begun it. The run is over where that one had not spawned it.
fn root_gone<H: Heap, W: Waits>(
    run: &mut Runner<H>,
    tasks: &mut Tasks<W>,
    up: Up,
) -> Result<Went, Memory>
    requires { IsGoneRoot W.pending up (view_of H.state run.old) tasks.old }
    ensures { IfOk result (λ r. RootGone W.pending up r (view_of H.state run.old) tasks.old
        (view_of H.state run.new) tasks.new) }
{
    match up {
        Up::Spawning(id, thread, entry) => resume(run, tasks, id, thread, Value::Task(entry)),
        Up::Begins(_) => Ok(Went::Over(Ending::Stuck)),
        Up::Branching(_, _) => Ok(Went::Over(Ending::Stuck)),
    }
}
