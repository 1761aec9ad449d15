//! A task goes on with a value.

ghost use Rattle.std.specs.Prelude.{◌≢◌, [], IfOk};
ghost use Rattle.verse_value.specs.View.{val_of};
ghost use Rattle.vm_running.specs.Runners.{view_of};
ghost use Rattle.vm_scheduler.specs.Moving.{Resumes};

use crate::tasks::{Tasks, Went};
use sim_clock::waits::Waits;
use tx_heap::heaps::Heap;
use verse_base::refusals::Memory;
use verse_value::values::Value;
use vm_frames::threads::Thread;
use vm_running::runners::Runner;

/// The task of this number in the tree goes on in its frames, with a value on top.
pub fn resume<H: Heap, W: Waits>(
    run: &mut Runner<H>,
    tasks: &mut Tasks<W>,
    id: usize,
    thread: Thread,
    value: Value,
) -> Result<Went, Memory>
    requires { thread ≢ [] }
    ensures { IfOk result (λ r. Resumes W.pending id thread (val_of value) r
        (view_of H.state run.old) tasks.old (view_of H.state run.new) tasks.new) }
{
    let mut thread = thread;
    thread.push(value)?;
    run.thread = thread;
    tasks.id = id;
    Ok(Went::On)
}
