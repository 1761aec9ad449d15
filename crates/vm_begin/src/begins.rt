//! A task begins, and runs first.

ghost use Rattle.std.specs.Prelude.{◌≡◌, ◌≢◌, ◌≤◌, ◌+◌, true, [], IfOk, length};
ghost use Rattle.verse_value.specs.View.{vals_of};
ghost use Rattle.task_tree.specs.Tasks.{IsLive};
ghost use Rattle.vm_frames.specs.Machine.{frames_with, all_free};
ghost use Rattle.vm_running.specs.Runners.{view_of};
ghost use Rattle.vm_scheduler.specs.Going.{Goes};
ghost use Rattle.vm_scheduler.specs.Meets.{Comes};
ghost use Rattle.vm_begin.specs.Doings.{branches, spawns_task};
ghost use Rattle.vm_begin.specs.Arms.{BeginsArm};

use sim_clock::waits::Waits;
use std::mem;
use tx_heap::heaps::Heap;
use verse_base::refusals::Memory;
use verse_code::codes::Func;
use verse_value::runs::Ending;
use verse_value::values::Value;
use vm_frames::threads::Thread;
use vm_running::runners::Runner;
use vm_scheduler::tasks::{Begins, Tasks, Up, Went};
use vm_scheduler::ups::push;
use vm_tasks::table::{begin_part, begin_spawned};

/// A task behind begins at a place, for a step, with a copy of the running task's locals. The run
/// is over where no step is left.
pub fn branch<H: Heap, W: Waits>(
    run: &mut Runner<H>,
    tasks: &mut Tasks<W>,
    at: u32,
) -> Result<Went, Memory>
    requires there { Goes W.pending (view_of H.state run.old) tasks.old }
    requires free { all_free (frames_with run.old.thread []) ≡ true }
    ensures { IfOk result (λ r. Comes W.pending (branches at) r (view_of H.state run.old) tasks.old
        (view_of H.state run.new) tasks.new) }
{
    if run.left == 0 {
        return Ok(Went::Over(Ending::Steps));
    }
    run.left -= 1;
    run.spent += 1;
    tasks.tree.is_nested();
    let id = begin_part(&mut tasks.tree, tasks.id, run.left)?;
    let thread = run.thread.copy_at(tasks.alloc, at, run.left)?;
    let parent = mem::replace(&mut run.thread, thread);
    push(&mut tasks.ups, Up::Branching(tasks.id, parent))?;
    tasks.id = id;
    Ok(Went::On)
}

/// A task of the next entry begins, for a step, with a call of a function and as many arguments as
/// it has parameters. The run is over where no step is left. Memory is wanting too where there are
/// 4294967295 entries.
pub fn spawn<H: Heap, W: Waits>(
    run: &mut Runner<H>,
    tasks: &mut Tasks<W>,
    func: &Func,
    args: Vec<Value>,
) -> Result<Went, Memory>
    requires there { Goes W.pending (view_of H.state run.old) tasks.old }
    requires free { all_free (frames_with run.old.thread []) ≡ true }
    requires params { length args.items ≡ func.now.params }
    requires locals { func.now.params ≤ func.now.locals }
    ensures { IfOk result (λ r. Comes W.pending (spawns_task func.now (vals_of args.items)) r
        (view_of H.state run.old) tasks.old (view_of H.state run.new) tasks.new) }
{
    if run.left == 0 {
        return Ok(Went::Over(Ending::Steps));
    }
    run.left -= 1;
    run.spent += 1;
    let entry = tasks.results.len();
    if entry >= 4294967295 {
        return Err(Memory);
    }
    let id = begin_spawned(&mut tasks.tree, entry as u32, run.left)?;
    tasks.results.push(None)?;
    let thread = Thread::begin(tasks.alloc, func, args, run.left)?;
    let parent = mem::replace(&mut run.thread, thread);
    push(&mut tasks.ups, Up::Spawning(tasks.id, parent, entry as u32))?;
    tasks.id = id;
    Ok(Went::On)
}

/// The next arm of a group begins at a label, for a step, with a copy of the locals of the task
/// that begins it. The run is over where no step is left.
pub fn begin_arm<H: Heap, W: Waits>(
    run: &mut Runner<H>,
    tasks: &mut Tasks<W>,
    begins: Begins,
    label: u32,
) -> Result<Went, Memory>
    requires live { IsLive begins.id tasks.old.tree }
    requires some { begins.thread ≢ [] }
    requires steps { run.old.left + run.old.spent ≤ 18446744073709551615 }
    ensures { IfOk result (λ r. BeginsArm W.pending begins label r
        (view_of H.state run.old) tasks.old (view_of H.state run.new) tasks.new) }
{
    if run.left == 0 {
        return Ok(Went::Over(Ending::Steps));
    }
    run.left -= 1;
    run.spent += 1;
    let thread = begins.thread.copy_at(tasks.alloc, label, run.left)?;
    let id = begin_part(&mut tasks.tree, begins.id, run.left)?;
    let mut begins = begins;
    begins.number = run.left;
    push(&mut tasks.ups, Up::Begins(begins))?;
    run.thread = thread;
    tasks.id = id;
    Ok(Went::On)
}
