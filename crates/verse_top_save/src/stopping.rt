//! The run of a code that is saved where it stops at its horizon.

ghost use Rattle.std.specs.Prelude.{◌≡◌, ◌≤◌, ℕ, List, [], Option};
ghost use Rattle.tx_heap.specs.State.{empty};
ghost use Rattle.verse_code.specs.Validity.{Valid};
ghost use Rattle.verse_value.specs.declared.runs.Ending.TheVariants as ending;
ghost use Rattle.run_save_shots.specs.Fitting.{Fits};
ghost use Rattle.run_save_shots.specs.View.{shot_of};
ghost use Rattle.verse_top_args.specs.Words.{Options};
ghost use Rattle.verse_top_exec.specs.Asking.{options_of};
ghost use Rattle.verse_top_exec.specs.Courses.{course_of};
ghost use Rattle.verse_top_exec.specs.Endings.{IsWithin};
ghost use Rattle.verse_top_exec.specs.Executions.{IsNothing};
ghost use Rattle.verse_top_exec.specs.Leaving.{Leaves};
ghost use Rattle.verse_top_exec.specs.Turns.{Ended};
ghost use Rattle.verse_top_save.specs.Saving.{IsWritten, SavesRun, SavesRunSoFar, is_until};
ghost use Rattle.verse_top_save.specs.Saving.{without_heap};

use crate::lines::saved_text;
use run_save_shots::shots::Shot;
use run_save_writer::saving::save;
use sim_clock::waits::Waits;
use std::alloc::Global;
use tx_heap::heaps::Heap;
use verse_code::codes::Code;
use verse_outside::sinks::{Sink, write_all};
use verse_top_exec::asking::Asked;
use verse_top_exec::stops::Stop;
use verse_top_exec::streams::finish;
use verse_top_exec::turns::all_turns;
use verse_value::runs::Ending;
use vm_run::laws::runs_hold;
use vm_run::machines::{Bounds, Vm};
use vm_run::saving::ShotFault;

/// Runs a code over a heap and waits that are empty, writes its trace as it goes on and what is
/// kept of it where it stops at its horizon, and answers the status.
pub(crate) fn save_run<H: Heap + Drop, W: Waits + Drop, S: Sink>(
    alloc: Global,
    code: &Code,
    heap: H,
    waits: W,
    asked: Asked<'_>,
    out: &mut S,
) -> Result<u8, Stop>
    requires valid { Valid code.now }
    requires heap { H.state heap ≡ empty }
    requires waits { W.pending waits ≡ [] }
    requires within { IsWithin (options_of asked) }
    ensures leaves { Leaves (SavesRun code.now (options_of asked.entry))
        (SavesRunSoFar code.now (options_of asked.entry)) (S.faults out.old) (S.faults out.new)
        (S.taken out.old) (S.taken out.new) result }
    ensures later { S.faults out.old ≤ S.faults out.new }
{
    let bounds = Bounds {
        steps: asked.steps,
        until: asked.until,
    };
    let mut vm = Vm::new(alloc, code, heap, waits, asked.inputs, bounds)?;
    let ending = all_turns(&mut vm, code, asked.steps, out)?;
    if has_stopped(ending) {
        save_stopped(alloc, code, &mut vm, out)
    } else {
        finish(alloc, code, vm, ending, false, out)
    }
}

/// Whether a run with this ending stopped at its horizon.
fn has_stopped(ending: Ending) -> bool
    ensures { result ≡ is_until ending }
{
    match ending {
        Ending::Until => true,
        Ending::Done | Ending::Waiting | Ending::Steps | Ending::Error(_, _) | Ending::Stuck => {
            false
        }
    }
}

/// Writes what is kept of a run that stopped at its horizon, and answers the status.
fn save_stopped<H: Heap + Drop, W: Waits + Drop, S: Sink>(
    alloc: Global,
    code: &Code,
    vm: &mut Vm<H, W>,
    out: &mut S,
) -> Result<u8, Stop>
    requires valid { Valid code.now }
    requires ended { (o : Options) × (old : Option (List ℕ)) ×
        Ended H.state W.pending code.now (course_of (without_heap o)) ending.Until old
        (S.taken out.old) vm.old }
    ensures leaves { (o : Options) (before : ℕ) (old : Option (List ℕ)) →
        before ≤ S.faults out.old →
        Ended H.state W.pending code.now (course_of (without_heap o)) ending.Until old
        (S.taken out.old) vm.old →
        Leaves (SavesRun code.now o) (SavesRunSoFar code.now o) before (S.faults out.new) old
        (S.taken out.new) result }
    ensures later { S.faults out.old ≤ S.faults out.new }
{
    runs_hold();
    let line = saved_text(alloc, vm.now(), vm.steps(), vm.live())?;
    match vm.shot(alloc, code) {
        Ok(shot) => write_saved(alloc, code, &shot, line.as_slice(), out),
        Err(ShotFault::Memory) => Err(Stop::Memory),
        Err(ShotFault::NotStopped) => unreachable!(),
    }
}

/// Writes a line and the saved run of what is kept, which is made before the line is written.
fn write_saved<S: Sink>(
    alloc: Global,
    code: &Code,
    shot: &Shot,
    line: &[u8],
    out: &mut S,
) -> Result<u8, Stop>
    requires valid { Valid code.now }
    requires fits { Fits code.now (shot_of shot.now) }
    ensures leaves { Leaves (IsWritten code.now (shot_of shot.entry.now) line.now) IsNothing
        (S.faults out.old) (S.faults out.new) (S.taken out.old) (S.taken out.new) result }
    ensures later { S.faults out.old ≤ S.faults out.new }
{
    let bytes = save(alloc, code, shot)?;
    write_all(out, line)?;
    write_all(out, bytes.as_slice())?;
    Ok(3)
}
