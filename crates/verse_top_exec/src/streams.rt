//! The run of a code, written as it goes on.

ghost use Rattle.verse_base.specs.declared.limits.TheConstants.{MOST_STEPS};
ghost use Rattle.std.specs.Prelude.{◌≡◌, ◌≤◌, ℕ, List, Option, [], cond, IfErr, IfOk, OnOk};
ghost use Rattle.verse_code.specs.Validity.{Valid};
ghost use Rattle.verse_outside.specs.Held.{with_more};
ghost use Rattle.verse_meaning_state.specs.Texts.{heap_lines};
ghost use Rattle.verse_top_texts.specs.Endings.{ending_status};
ghost use Rattle.verse_code_machine.specs.Belonging.{StoreBelongs};
ghost use Rattle.tx_heap.specs.State.{empty};
ghost use Rattle.verse_top_exec.specs.Asking.{options_of};
ghost use Rattle.verse_top_exec.specs.Cells.{FirstLines};
ghost use Rattle.verse_top_exec.specs.Endings.{FrontOf, IsWithin, last_run, rest_text};
ghost use Rattle.verse_top_exec.specs.Courses.{Course, Comes, ComesSoFar};
ghost use Rattle.verse_top_exec.specs.Executions.{Runs, RunsSoFar};
ghost use Rattle.verse_top_exec.specs.Leaving.{Leaves, Stopped};
ghost use Rattle.verse_top_exec.specs.Turns.{Ended, StandsAt};

use crate::asking::Asked;
use crate::heap_lines::write_heap;
use crate::stops::Stop;
use crate::turns::all_turns;
use sim_clock::waits::Waits;
use std::alloc::Global;
use tx_heap::heaps::Heap;
use verse_code::codes::Code;
use verse_outside::sinks::{Sink, write_all};
use verse_top_texts::endings::{ending_text, status_of};
use verse_value::runs::Ending;
use vm_run::laws::runs_hold;
use vm_run::machines::{Bounds, Vm};

/// Runs a code over a heap and waits that are empty, writes its text as it goes on, and answers the
/// status.
pub(crate) fn stream<H: Heap + Drop, W: Waits + Drop, S: Sink>(
    alloc: Global,
    code: &Code,
    heap: H,
    waits: W,
    asked: Asked<'_>,
    out: &mut S,
) -> Result<u8, Stop>
    requires valid { Valid code.now }
    requires heap { H.state heap ≡ empty }
    requires waits { W.pending waits ≡ [] }
    requires within { IsWithin (options_of asked) }
    ensures leaves { Leaves (Runs code.now (options_of asked.entry))
        (RunsSoFar code.now (options_of asked.entry)) (S.faults out.old) (S.faults out.new)
        (S.taken out.old) (S.taken out.new) result }
    ensures later { S.faults out.old ≤ S.faults out.new }
{
    let bounds = Bounds {
        steps: asked.steps,
        until: asked.until,
    };
    let vm = Vm::new(alloc, code, heap, waits, asked.inputs, bounds)?;
    stream_on(alloc, code, vm, asked.steps, asked.heap, out)
}

/// Takes all turns of a run that is at its start and may spend so many steps, at most `MOST_STEPS`,
/// writes its text as it goes on, with the lines of its heap where these are asked for, and answers
/// the status.
pub fn stream_on<H: Heap + Drop, W: Waits + Drop, S: Sink>(
    alloc: Global,
    code: &Code,
    vm: Vm<H, W>,
    steps: u64,
    lines: bool,
    out: &mut S,
) -> Result<u8, Stop>
    requires valid { Valid code.now }
    requires few { steps ≤ MOST_STEPS }
    requires begun { (w : Course) × (w.steps ≡ steps) ×
        StandsAt H.state W.pending code.now w 0 [] vm }
    ensures leaves { (w : Course) → w.steps ≡ steps → w.heap ≡ lines →
        StandsAt H.state W.pending code.now w 0 [] vm →
        Leaves (Comes code.now w) (ComesSoFar code.now w) (S.faults out.old) (S.faults out.new)
        (S.taken out.old) (S.taken out.new) result }
    ensures later { S.faults out.old ≤ S.faults out.new }
{
    let mut vm = vm;
    let ending = all_turns(&mut vm, code, steps, out)?;
    finish(alloc, code, vm, ending, lines, out)
}

/// Writes what stands behind the trace of a run that has ended so, and answers the status.
pub fn finish<H: Heap + Drop, W: Waits + Drop, S: Sink>(
    alloc: Global,
    code: &Code,
    vm: Vm<H, W>,
    ending: Ending,
    lines: bool,
    out: &mut S,
) -> Result<u8, Stop>
    requires valid { Valid code.now }
    requires ended { (w : Course) × (old : Option (List ℕ)) ×
        Ended H.state W.pending code.now w ending old (S.taken out.old) vm }
    ensures leaves { (w : Course) (before : ℕ) (old : Option (List ℕ)) → w.heap ≡ lines →
        before ≤ S.faults out.old →
        Ended H.state W.pending code.now w ending old (S.taken out.old) vm →
        Leaves (Comes code.now w) (ComesSoFar code.now w) before (S.faults out.new) old
        (S.taken out.new) result }
    ensures later { S.faults out.old ≤ S.faults out.new }
{
    runs_hold();
    let (now, steps, live) = (vm.now(), vm.steps(), vm.live());
    let (mut heap, _trace) = vm.into_parts();
    let last = Last {
        ending,
        now,
        steps,
        live,
    };
    write_rest(alloc, code, &mut heap, last, lines, out)
}

/// What the last line of a run tells.
#[derive(Clone, Copy)]
struct Last {
    ending: Ending,
    now: u64,
    steps: u64,
    live: u64,
}

/// Writes what stands behind the trace, and answers the status.
fn write_rest<H: Heap, S: Sink>(
    alloc: Global,
    code: &Code,
    heap: &mut H,
    last: Last,
    lines: bool,
    out: &mut S,
) -> Result<u8, Stop>
    requires belongs { StoreBelongs code.now.classes (H.state heap.old).cells }
    ensures status { IfOk result (λ s. s ≡ ending_status last.ending) }
    ensures whole { OnOk result (S.taken out.new ≡
        with_more (S.taken out.old)
        (rest_text lines (H.state heap.old).cells code.now.files (last_run last))) }
    ensures stopped { IfErr result
        (Stopped (FirstLines lines (H.state heap.old).cells)
        (FrontOf lines (H.state heap.old).cells code.now.files (last_run last)) (S.faults out.old)
        (S.faults out.new) (S.taken out.old) (S.taken out.new)) }
    ensures later { S.faults out.old ≤ S.faults out.new }
{
    write_lines(alloc, code, heap, lines, out)?;
    let line = ending_text(
        alloc,
        last.ending,
        code.files,
        last.now,
        last.steps,
        last.live,
    )?;
    write_all(out, line.as_slice())?;
    Ok(status_of(last.ending))
}

/// Writes the lines of the heap, where they are asked for.
fn write_lines<H: Heap, S: Sink>(
    alloc: Global,
    code: &Code,
    heap: &mut H,
    lines: bool,
    out: &mut S,
) -> Result<(), Stop>
    requires belongs { StoreBelongs code.now.classes (H.state heap.old).cells }
    ensures whole { OnOk result (S.taken out.new ≡
        with_more (S.taken out.old) (cond lines (heap_lines 0 (H.state heap.old).cells) [])) }
    ensures stopped { IfErr result
        (Stopped (FirstLines lines (H.state heap.old).cells)
        (FirstLines lines (H.state heap.old).cells) (S.faults out.old) (S.faults out.new)
        (S.taken out.old) (S.taken out.new)) }
    ensures later { S.faults out.old ≤ S.faults out.new }
{
    if lines {
        write_heap(alloc, heap, code, out)
    } else {
        Ok(())
    }
}
