//! Frames are written.

ghost use Rattle.std.specs.Prelude.{◌≡◌, OnOk, map};
ghost use Rattle.verse_image.specs.Writing.{Writes};
ghost use Rattle.run_save_shots.specs.View.{frame_of};
ghost use Rattle.run_save_format.specs.Format as format;
ghost use Rattle.run_save_format.specs.Format.{list};

use crate::numbers::{push_count, push_numbers};
use crate::values::push_values;
use run_save_shots::shots::FrameShot;
use verse_base::refusals::Memory;
use verse_image::digits::push_number;

fn push_frame(out: &mut Vec<u8>, frame: &FrameShot) -> Result<(), Memory>
    ensures { OnOk result (Writes (format.frame (frame_of frame.now)) out.old.items out.new.items) }
{
    push_number(out, frame.place)?;
    push_values(out, frame.locals.as_slice())?;
    push_values(out, frame.stack.as_slice())?;
    push_numbers(out, frame.defers.as_slice())?;
    Ok(())
}

/// Writes how many frames there are, and then each.
pub fn push_frames(out: &mut Vec<u8>, frames: &[FrameShot]) -> Result<(), Memory>
    ensures { OnOk result (Writes (list format.frame (map frame_of frames.now))
        out.old.items out.new.items) }
{
    push_count(out, frames.len())?;
    'entries: for entry in frames {
        push_frame(out, entry)?;
    }
    Ok(())
}
