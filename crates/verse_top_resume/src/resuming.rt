//! What is done with the bytes of a file of which the saved run goes on.

ghost use Rattle.verse_base.specs.declared.limits.TheConstants.{MOST_NOW};
ghost use Rattle.std.specs.Prelude.{◌≡◌, ◌≤◌, ℕ};
ghost use Rattle.verse_top_exec.specs.Executions.{IsNothing};
ghost use Rattle.verse_top_exec.specs.Leaving.{Leaves};
ghost use Rattle.verse_top_resume.specs.Resuming.{IsFault, ResumedOnce, Resumes, ResumesSoFar};

use crate::lines::state_text;
use crate::runs::go_on;
use run_save_format::faults::SaveFault;
use run_save_reader::restoring::restore;
use run_save_reads::read_run_fits;
use sim_clock::map_waits::MapWaits;
use std::alloc::Global;
use tx_heap::undo_heap::UndoHeap;
use verse_outside::sinks::{Sink, write_all};
use verse_top_exec::stops::Stop;

/// A file has one answer.
pub fn resumed_once()
    ensures { ResumedOnce }
{}

/// Goes on with the run that is saved in the file, to this horizon, at most `MOST_NOW`, or tells
/// why there is none, and answers the status. What is written of the run is written as it goes on,
/// with the lines of its heap where these are asked for.
pub fn resume_file<S: Sink>(
    alloc: Global,
    file: &[u8],
    until: u64,
    lines: bool,
    out: &mut S,
) -> Result<u8, Stop>
    requires until { until ≤ MOST_NOW }
    ensures leaves { Leaves (Resumes file.now until lines) (ResumesSoFar file.now until lines)
        (S.faults out.old) (S.faults out.new) (S.taken out.old) (S.taken out.new) result }
    ensures later { S.faults out.old ≤ S.faults out.new }
{
    read_run_fits();
    match restore(alloc, file) {
        Ok((code, shot)) => {
            let heap = UndoHeap::new(alloc);
            go_on(
                alloc,
                &code,
                heap,
                MapWaits::new(alloc),
                shot,
                until,
                lines,
                out,
            )
        }
        Err(SaveFault::Bad { rule, at }) => no_state(alloc, rule, at, out),
        Err(SaveFault::Memory) => Err(Stop::Memory),
    }
}

/// Tells which rule fails, and where.
fn no_state<S: Sink>(alloc: Global, rule: u8, at: usize, out: &mut S) -> Result<u8, Stop>
    ensures leaves { Leaves (IsFault rule at) IsNothing (S.faults out.old) (S.faults out.new)
        (S.taken out.old) (S.taken out.new) result }
    ensures later { S.faults out.old ≤ S.faults out.new }
{
    let line = state_text(alloc, rule, at)?;
    write_all(out, line.as_slice())?;
    Ok(1)
}
