//! Frames and tasks that end.

ghost use Rattle.std.specs.Prelude.{◌≡◌, ◌≢◌, [], IfOk, OnOk};
ghost use Rattle.verse_value.specs.View.{val_of};
ghost use Rattle.vm_frames.specs.Calls.{pushed};
ghost use Rattle.vm_running.specs.Runners.{view_of};
ghost use Rattle.vm_return.specs.Ends.{IsReturning, IsEnding, IsUnwinding, Returned, Finished};
ghost use Rattle.vm_return.specs.Ends.{Closed, Unwound};

use crate::follows::unwind;
use sim_clock::waits::Waits;
use std::mem;
use tx_heap::heaps::Heap;
use verse_base::refusals::Memory;
use verse_value::runs::Ending;
use verse_value::values::Value;
use vm_cancel::cancels::cancel;
use vm_cancel::frames::clear_frames;
use vm_complete::roots::is_part;
use vm_frames::threads::Thread;
use vm_running::runners::Runner;
use vm_scheduler::tasks::{After, Tasks, Went};

/// The top frame has returned the value and is off. What the task has begun since that frame
/// began, when `born` steps were left, is cancelled, and the frame below goes on with the value.
pub fn returned<H: Heap, W: Waits>(
    run: &mut Runner<H>,
    tasks: &mut Tasks<W>,
    born: u64,
    value: Value,
) -> Result<Went, Memory>
    requires { IsReturning W.pending born (view_of H.state run.old) tasks.old }
    ensures { IfOk result (λ r. Returned W.pending born (val_of value) r
        (view_of H.state run.old) tasks.old (view_of H.state run.new) tasks.new) }
{
    if tasks.after.is_some() {
        run.thread.push(value)?;
        return Ok(Went::On);
    }
    let id = tasks.id;
    cancel(tasks, id, born)?;
    if tasks.gone.frames.is_empty() {
        tasks.id = id;
        run.thread.push(value)?;
        return Ok(Went::On);
    }
    let thread = mem::replace(&mut run.thread, Thread::empty(tasks.alloc));
    unwind(run, tasks, id, After::Resuming(thread, value))
}

/// The last frame of a task has returned the value and is off. The task is over when what it has
/// begun is cancelled; the run is over where it is no task of its own.
pub fn finished<H: Heap, W: Waits>(
    run: &mut Runner<H>,
    tasks: &mut Tasks<W>,
    born: u64,
    value: Value,
) -> Result<Went, Memory>
    requires { IsEnding W.pending born (view_of H.state run.old) tasks.old }
    ensures { IfOk result (λ r. Finished W.pending born (val_of value) r
        (view_of H.state run.old) tasks.old (view_of H.state run.new) tasks.new) }
{
    tasks.tree.is_nested();
    let id = tasks.id;
    if is_part(&tasks.tree, id) {
        return Ok(Went::Over(Ending::Stuck));
    }
    cancel(tasks, id, born)?;
    unwind(run, tasks, id, After::Finishing(value))
}

/// An arm or a task behind is over with the value, when what it has begun is cancelled; its last
/// frame is off. The run is over where the task is one of its own.
pub fn closed<H: Heap, W: Waits>(
    run: &mut Runner<H>,
    tasks: &mut Tasks<W>,
    born: u64,
    value: Value,
) -> Result<Went, Memory>
    requires { IsEnding W.pending born (view_of H.state run.old) tasks.old }
    ensures { IfOk result (λ r. Closed W.pending born (val_of value) r
        (view_of H.state run.old) tasks.old (view_of H.state run.new) tasks.new) }
{
    tasks.tree.is_nested();
    let id = tasks.id;
    if !is_part(&tasks.tree, id) {
        return Ok(Went::Over(Ending::Stuck));
    }
    cancel(tasks, id, born)?;
    unwind(run, tasks, id, After::Closing(value))
}

/// The deferred block of a frame that is being cancelled is over: the frames of its task go, up to
/// the next one that has a deferred block, and then those of the tasks that are cancelled next;
/// where there are none left, what follows for the task that has cancelled.
pub fn block_ended<H: Heap, W: Waits>(
    run: &mut Runner<H>,
    tasks: &mut Tasks<W>,
) -> Result<Went, Memory>
    requires { IsUnwinding W.pending (view_of H.state run.old) tasks.old }
    ensures { IfOk result (λ r. Unwound W.pending r (view_of H.state run.old) tasks.old
        (view_of H.state run.new) tasks.new) }
{
    let thread = mem::replace(&mut run.thread, Thread::empty(tasks.alloc));
    match clear_frames(run, thread) {
        Went::Down => {}
        went => return Ok(went),
    }
    let id = tasks.id;
    match tasks.after.take() {
        Some(after) => unwind(run, tasks, id, after),
        None => unreachable!(),
    }
}
