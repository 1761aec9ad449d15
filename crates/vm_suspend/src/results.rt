//! What spawned tasks give.

ghost use Rattle.std.specs.Prelude.{◌≡◌, true, [], IfOk, Some, None};
ghost use Rattle.verse_value.specs.View.{val_of};
ghost use Rattle.verse_meaning_state.specs.State.{set_at};
ghost use Rattle.verse_meaning_state.specs.Waits.{nth};
ghost use Rattle.vm_frames.specs.Machine.{frames_with, all_free};
ghost use Rattle.vm_running.specs.Runners.{view_of};
ghost use Rattle.vm_scheduler.specs.Going.{Goes};
ghost use Rattle.vm_scheduler.specs.Meets.{Comes};
ghost use Rattle.vm_suspend.specs.Asleep.{awaiting};
ghost use Rattle.vm_suspend.specs.Results.{shown, values_in, IsOver, Gives};

use crate::asleep::suspend;
use sim_clock::waits::{WaitKind, Waits};
use std::alloc::Global;
use std::mem;
use tx_heap::heaps::Heap;
use verse_base::refusals::Memory;
use verse_value::runs::Ending;
use verse_value::values::Value;
use vm_frames::threads::Thread;
use vm_running::runners::Runner;
use vm_scheduler::moves::resume;
use vm_scheduler::tasks::{Given, Tasks, Went};

/// The task of an entry is over with a value, now: those that await it are woken.
pub fn give<H: Heap, W: Waits>(run: &Runner<H>, tasks: &mut Tasks<W>, entry: u32, value: Value)
    requires { IsOver entry tasks.old }
    ensures { Gives W.pending entry (val_of value) (view_of H.state run.now) tasks.old tasks.new }
{
    let moment = run.moment;
    let given = Given { value, moment };
    put_result(&mut tasks.results, entry as usize, given);
    tasks.gone.waits.wake_task(entry, moment);
}

/// The result of an entry that has none.
fn put_result(results: &mut Vec<Option<Given>>, entry: usize, given: Given)
    requires { nth results.old.items entry ≡ Some None }
    ensures { results.new.items ≡ set_at results.old.items entry (Some given) }
{
    results[entry] = Some(given);
}

/// The running task goes on with the result of the task of an entry, or it is suspended until there
/// is one; stuck where there is no such entry.
pub fn await_task<H: Heap, W: Waits>(
    run: &mut Runner<H>,
    tasks: &mut Tasks<W>,
    entry: u32,
) -> Result<Went, Memory>
    requires there { Goes W.pending (view_of H.state run.old) tasks.old }
    requires free { all_free (frames_with run.old.thread []) ≡ true }
    ensures { IfOk result (λ r. Comes W.pending (awaiting entry) r
        (view_of H.state run.old) tasks.old (view_of H.state run.new) tasks.new) }
{
    let known = result_of(tasks.alloc, &tasks.results, entry as usize)?;
    match known {
        None => Ok(Went::Over(Ending::Stuck)),
        Some(None) => suspend(run, tasks, WaitKind::Task(entry)),
        Some(Some(value)) => {
            let thread = mem::replace(&mut run.thread, Thread::empty(tasks.alloc));
            resume(run, tasks, tasks.id, thread, value)
        }
    }
}

/// The result of an entry: None where there is no such entry, and Some(None) where its task has
/// given no value.
fn result_of(
    alloc: Global,
    results: &Vec<Option<Given>>,
    entry: usize,
) -> Result<Option<Option<Value>>, Memory>
    ensures { IfOk result (λ k. shown k ≡ values_in (nth results.now.items entry)) }
{
    match results.get(entry) {
        None => Ok(None),
        Some(None) => Ok(Some(None)),
        Some(Some(given)) => {
            let value = given.value.copy(alloc)?;
            Ok(Some(Some(value)))
        }
    }
}
