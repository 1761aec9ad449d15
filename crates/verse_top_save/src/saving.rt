//! What is done with the bytes of a file that is run as an image and saved at its horizon.

ghost use Rattle.std.specs.Prelude.{◌≡◌, ◌≤◌, ℕ};
ghost use Rattle.verse_code.specs.Validity.{Valid};
ghost use Rattle.verse_image.specs.Reading.{flaw, image_at};
ghost use Rattle.verse_top_exec.specs.Asking.{options_of};
ghost use Rattle.verse_top_exec.specs.Endings.{IsWithin};
ghost use Rattle.verse_top_exec.specs.Executions.{IsFault, IsNothing};
ghost use Rattle.verse_top_exec.specs.Leaving.{Leaves};
ghost use Rattle.verse_top_save.specs.Saving.{SavedOnce, Saves, SavesRun, SavesRunSoFar};
ghost use Rattle.verse_top_save.specs.Saving.{SavesSoFar};

use crate::stopping::save_run;
use sim_clock::map_waits::MapWaits;
use std::alloc::Global;
use tx_heap::undo_heap::UndoHeap;
use verse_code::codes::Code;
use verse_image::decoding::decode;
use verse_image::faults::ImageFault;
use verse_outside::sinks::Sink;
use verse_top_exec::asking::Asked;
use verse_top_exec::executing::no_image;
use verse_top_exec::stops::Stop;

/// Bytes have one status, and one text but for the order in which the trees of tasks are kept.
pub fn saved_once()
    ensures { SavedOnce }
{}

/// Runs the code of which the bytes are the image, or tells why they are none, and answers the
/// status. What is written of the run's trace is written as it goes on; where the run stops at its
/// horizon the status is 3, and what is kept of it is written behind a line that begins with
/// `= saved `. The lines of the heap are not written, whatever is asked.
pub fn save_image<S: Sink>(
    alloc: Global,
    bytes: &[u8],
    asked: Asked<'_>,
    out: &mut S,
) -> Result<u8, Stop>
    requires within { IsWithin (options_of asked) }
    ensures leaves { Leaves (Saves bytes.now (options_of asked.entry))
        (SavesSoFar bytes.now (options_of asked.entry)) (S.faults out.old) (S.faults out.new)
        (S.taken out.old) (S.taken out.new) result }
    ensures later { S.faults out.old ≤ S.faults out.new }
{
    match decode(alloc, bytes) {
        Ok(code) => save_code(alloc, &code, asked, out),
        Err(ImageFault::Bad { rule, at }) => no_image(alloc, rule, at, out),
        Err(ImageFault::Memory) => Err(Stop::Memory),
    }
}

/// Runs a code, writes its trace as it goes on and what is kept of the run where it stops at its
/// horizon, and answers the status.
pub fn save_code<S: Sink>(
    alloc: Global,
    code: &Code,
    asked: Asked<'_>,
    out: &mut S,
) -> Result<u8, Stop>
    requires valid { Valid code.now }
    requires within { IsWithin (options_of asked) }
    ensures leaves { Leaves (SavesRun code.now (options_of asked.entry))
        (SavesRunSoFar code.now (options_of asked.entry)) (S.faults out.old) (S.faults out.new)
        (S.taken out.old) (S.taken out.new) result }
    ensures later { S.faults out.old ≤ S.faults out.new }
{
    let heap = UndoHeap::new(alloc);
    save_run(alloc, code, heap, MapWaits::new(alloc), asked, out)
}
