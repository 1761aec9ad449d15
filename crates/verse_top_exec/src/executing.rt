//! The run of a code that is in hand, and what is done with the bytes of a file that is run as an
//! image.

ghost use Rattle.std.specs.Prelude.{◌≡◌, ◌≤◌, ℕ};
ghost use Rattle.verse_code.specs.Validity.{Valid};
ghost use Rattle.verse_image.specs.Reading.{flaw, image_at};
ghost use Rattle.verse_top_exec.specs.Asking.{options_of};
ghost use Rattle.verse_top_exec.specs.Endings.{IsWithin};
ghost use Rattle.verse_top_exec.specs.Executions.{ExecutedOnce, Executes, ExecutesSoFar, IsFault};
ghost use Rattle.verse_top_exec.specs.Executions.{IsNothing, Runs, RunsSoFar};
ghost use Rattle.verse_top_exec.specs.Leaving.{Leaves};

use crate::asking::Asked;
use crate::stops::Stop;
use crate::streams::stream;
use sim_clock::map_waits::MapWaits;
use std::alloc::Global;
use tx_heap::undo_heap::UndoHeap;
use verse_code::codes::Code;
use verse_image::decoding::decode;
use verse_image::faults::ImageFault;
use verse_outside::sinks::{Sink, write_all};
use verse_top_texts::images::image_text;

/// Bytes have one answer.
pub fn executed_once()
    ensures { ExecutedOnce }
{}

/// Runs the code of which the bytes are the image, or tells why they are none, and answers the
/// status. What is written of a run is written as it goes on.
pub fn exec<S: Sink>(alloc: Global, bytes: &[u8], asked: Asked<'_>, out: &mut S) -> Result<u8, Stop>
    requires within { IsWithin (options_of asked) }
    ensures leaves { Leaves (Executes bytes.now (options_of asked.entry))
        (ExecutesSoFar bytes.now (options_of asked.entry)) (S.faults out.old) (S.faults out.new)
        (S.taken out.old) (S.taken out.new) result }
    ensures later { S.faults out.old ≤ S.faults out.new }
{
    match decode(alloc, bytes) {
        Ok(code) => run_code(alloc, &code, asked, out),
        Err(ImageFault::Bad { rule, at }) => no_image(alloc, rule, at, out),
        Err(ImageFault::Memory) => Err(Stop::Memory),
    }
}

/// Runs a code, writes its text as it goes on, and answers the status.
pub fn run_code<S: Sink>(
    alloc: Global,
    code: &Code,
    asked: Asked<'_>,
    out: &mut S,
) -> Result<u8, Stop>
    requires valid { Valid code.now }
    requires within { IsWithin (options_of asked) }
    ensures leaves { Leaves (Runs code.now (options_of asked.entry))
        (RunsSoFar code.now (options_of asked.entry)) (S.faults out.old) (S.faults out.new)
        (S.taken out.old) (S.taken out.new) result }
    ensures later { S.faults out.old ≤ S.faults out.new }
{
    let heap = UndoHeap::new(alloc);
    stream(alloc, code, heap, MapWaits::new(alloc), asked, out)
}

/// Tells which rule of images fails, and at which offset, and answers the status.
pub fn no_image<S: Sink>(alloc: Global, rule: u8, at: usize, out: &mut S) -> Result<u8, Stop>
    ensures leaves { Leaves (IsFault rule at) IsNothing (S.faults out.old) (S.faults out.new)
        (S.taken out.old) (S.taken out.new) result }
    ensures later { S.faults out.old ≤ S.faults out.new }
{
    let line = image_text(alloc, rule, at)?;
    write_all(out, line.as_slice())?;
    Ok(1)
}
