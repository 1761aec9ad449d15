//! A task that is suspended, and one that signals.

ghost use Rattle.std.specs.Prelude.{◌≡◌, ◌<◌, IfOk, Option};
ghost use Rattle.verse_code.specs.declared.codes.Code.{Code};
ghost use Rattle.verse_code.specs.declared.operations.Op.TheVariants as op;
ghost use Rattle.verse_meaning_state.specs.State.{State};
ghost use Rattle.verse_meaning_state.specs.Effects.{event_of, task_of};
ghost use Rattle.verse_value.specs.View.{val_of};
ghost use Rattle.vm_frames.specs.Framed.{place_of};
ghost use Rattle.vm_running.specs.Views.{Ready};
ghost use Rattle.vm_running.specs.Runners.{view_of};
ghost use Rattle.vm_running.specs.Doings.{acts};
ghost use Rattle.vm_exec_tasks.specs.Asking.{Asks};
ghost use Rattle.vm_exec_tasks.specs.Leaving.{Leaves};

use crate::asked::Asked;
use crate::going::go_next;
use tx_heap::heaps::Heap;
use verse_base::refusals::Memory;
use verse_value::runs::{CellKind, Ending};
use verse_value::values::Value;
use vm_running::operands::pop_two;
use vm_running::runners::{Did, Runner};

/// The task is suspended for so many milliseconds. Memory is wanting too where the moment would
/// pass 18446744073709551615.
pub fn sleep<H: Heap>(run: &mut Runner<H>, duration: u32) -> Result<Asked, Memory>
    requires ready { Ready (view_of H.state run.old) }
    requires inner { place_of run.old.thread < 4294967295 }
    ensures asks { (c : Code) → IfOk result
        (λ k. Asks (acts c (op.Sleep duration)) k (view_of H.state run.old)
        (view_of H.state run.new)) }
    ensures leaves { IfOk result
        (λ k. Leaves k (view_of H.state run.old) (view_of H.state run.new)) }
{
    if !run.thread.is_free() {
        return Ok(Asked::Nothing(Did::Over(Ending::Stuck)));
    }
    let Some(moment) = run.moment.checked_add(duration as u64) else {
        return Err(Memory);
    };
    go_next(&mut run.thread);
    Ok(Asked::SleepUntil(moment))
}

/// The task is suspended for ever. Takes no memory.
pub fn sleep_forever<H: Heap>(run: &mut Runner<H>) -> Asked
    requires ready { Ready (view_of H.state run.old) }
    requires inner { place_of run.old.thread < 4294967295 }
    ensures asks { (c : Code) → Asks (acts c op.Forever) result (view_of H.state run.old)
        (view_of H.state run.new) }
    ensures leaves { Leaves result (view_of H.state run.old) (view_of H.state run.new) }
{
    if !run.thread.is_free() {
        return Asked::Nothing(Did::Over(Ending::Stuck));
    }
    go_next(&mut run.thread);
    Asked::SleepForever
}

/// Pops a task; its result is awaited. Takes no memory.
pub fn await_task<H: Heap>(run: &mut Runner<H>) -> Asked
    requires ready { Ready (view_of H.state run.old) }
    requires inner { place_of run.old.thread < 4294967295 }
    ensures asks { (c : Code) → Asks (acts c op.AwaitTask) result (view_of H.state run.old)
        (view_of H.state run.new) }
    ensures leaves { Leaves result (view_of H.state run.old) (view_of H.state run.new) }
{
    if !run.thread.is_free() {
        return Asked::Nothing(Did::Over(Ending::Stuck));
    }
    let Some(value) = run.thread.pop() else {
        return Asked::Nothing(Did::Over(Ending::Stuck));
    };
    let Some(entry) = task_of(&value) else {
        return Asked::Nothing(Did::Over(Ending::Stuck));
    };
    go_next(&mut run.thread);
    Asked::AwaitTask(entry)
}

/// Pops an event; its next signal is awaited. Takes no memory.
pub fn await_event<H: Heap>(run: &mut Runner<H>) -> Asked
    requires ready { Ready (view_of H.state run.old) }
    requires inner { place_of run.old.thread < 4294967295 }
    ensures asks { (c : Code) → Asks (acts c op.AwaitEvent) result (view_of H.state run.old)
        (view_of H.state run.new) }
    ensures leaves { Leaves result (view_of H.state run.old) (view_of H.state run.new) }
{
    if !run.thread.is_free() {
        return Asked::Nothing(Did::Over(Ending::Stuck));
    }
    let Some(value) = run.thread.pop() else {
        return Asked::Nothing(Did::Over(Ending::Stuck));
    };
    let Some(event) = event_of(&mut run.heap, &value) else {
        return Asked::Nothing(Did::Over(Ending::Stuck));
    };
    go_next(&mut run.thread);
    Asked::AwaitEvent(event)
}

/// Pops an event and a value and pushes unit; the event is signalled with the value.
pub fn signal<H: Heap>(run: &mut Runner<H>) -> Result<Asked, Memory>
    requires ready { Ready (view_of H.state run.old) }
    requires inner { place_of run.old.thread < 4294967295 }
    ensures asks { (c : Code) → IfOk result
        (λ k. Asks (acts c op.Signal) k (view_of H.state run.old) (view_of H.state run.new)) }
    ensures leaves { IfOk result
        (λ k. Leaves k (view_of H.state run.old) (view_of H.state run.new)) }
{
    if !run.thread.is_free() {
        return Ok(Asked::Nothing(Did::Over(Ending::Stuck)));
    }
    let Some((event, value)) = pop_two(&mut run.thread) else {
        return Ok(Asked::Nothing(Did::Over(Ending::Stuck)));
    };
    let Some(event) = event_of(&mut run.heap, &event) else {
        return Ok(Asked::Nothing(Did::Over(Ending::Stuck)));
    };
    run.thread.push(Value::Unit)?;
    go_next(&mut run.thread);
    Ok(Asked::Signal(event, value))
}

// The number of a spawned task.
fn task_of(value: &Value) -> Option<u32>
    ensures { result ≡ task_of (val_of value.now) }
{
    match value {
        Value::Task(entry) => Some(*entry),
        _ => None,
    }
}

// The cell of an event.
fn event_of<H: Heap>(heap: &mut H, value: &Value) -> Option<u32>
    ensures event { (s : State) → s.memory.store ≡ (H.state heap.old).cells →
        result ≡ event_of (val_of value.now) s }
    ensures same { H.state heap.new ≡ H.state heap.old }
{
    let Value::Event(cell) = value else {
        return None;
    };
    if *cell >= heap.len() {
        return None;
    }
    match heap.kind(*cell) {
        CellKind::Event => Some(*cell),
        CellKind::Var | CellKind::Object(_) => None,
    }
}
