//! Frames are read.

ghost use Rattle.std.specs.Prelude.{◌≡◌, Ok, map};
ghost use Rattle.verse_image.specs.Reading.{Gives};
ghost use Rattle.run_save_shots.specs.View.{frame_of};
ghost use Rattle.run_save_format.specs.Values.{small_where};
ghost use Rattle.run_save_format.specs.Reading.{is_block, many_at, place_at, defers_at, frame_at};
ghost use Rattle.run_save_format.specs.Reading.{frames_from, frames_at};
ghost use Rattle.run_save_tasks.specs.View.{known_of};

use crate::known::Known;
use run_save_parts::outside::free_values;
use run_save_shots::shots::FrameShot;
use run_save_stands::stands::{is_block, may_stand, stand_at};
use run_save_values::numbers::{number_in, small, wide};
use std::alloc::Global;
use verse_code::codes::Code;
use verse_image::faults::ReadFault;
use verse_image::numbers::bad;

// Where a frame stands below so many others.
#[tactic(auto, unfolding(run_save_format::specs::Reading::place_at, run_save_format::specs::Values::small_where))]
fn place<'a>(known: &Known<'_>, above: u64, bytes: &'a [u8]) -> Result<(u32, &'a [u8]), ReadFault>
    ensures { Gives (λ x. (x.0, x.1.now)) result
        (place_at (known_of known.now) above bytes.now) }
{
    let (place, rest) = small(bytes)?;
    if may_stand(above, stand_at(known.code, place)) {
        Ok((place, rest))
    } else {
        Err(bad(5, bytes.len()))
    }
}

#[tactic(auto, unfolding(run_save_format::specs::Values::small_where))]
fn defer<'a>(code: &Code, bytes: &'a [u8]) -> Result<(u32, &'a [u8]), ReadFault>
    ensures { Gives (λ x. (x.0, x.1.now)) result (small_where (is_block code.now) bytes.now) }
{
    let (at, rest) = small(bytes)?;
    if is_block(code, at) {
        Ok((at, rest))
    } else {
        Err(bad(5, bytes.len()))
    }
}

fn some_defers<'a>(
    alloc: Global,
    code: &Code,
    count: u64,
    bytes: &'a [u8],
) -> Result<(Vec<u32>, &'a [u8]), ReadFault>
    ensures { Gives (λ x. (x.0.items, x.1.now)) result
        (many_at (small_where (is_block code.now)) count bytes.now) }
{
    let mut defers = Vec::new(alloc);
    let mut rest = bytes;
    'defers: for _i in 0..count {
        let (at, after) = defer(code, rest)?;
        defers.push(at)?;
        rest = after;
    }
    Ok((defers, rest))
}

#[tactic(auto, unfolding(run_save_format::specs::Reading::defers_at))]
fn defers<'a>(
    alloc: Global,
    known: &Known<'_>,
    bytes: &'a [u8],
) -> Result<(Vec<u32>, &'a [u8]), ReadFault>
    ensures { Gives (λ x. (x.0.items, x.1.now)) result (defers_at (known_of known.now) bytes.now) }
{
    let (count, rest) = wide(bytes)?;
    some_defers(alloc, known.code, count, rest)
}

// A frame below so many others.
#[tactic(auto, unfolding(run_save_format::specs::Reading::frame_at))]
fn frame<'a>(
    alloc: Global,
    known: &Known<'_>,
    above: u64,
    bytes: &'a [u8],
) -> Result<(FrameShot, &'a [u8]), ReadFault>
    ensures { Gives (λ x. (frame_of x.0, x.1.now)) result
        (frame_at (known_of known.now) above bytes.now) }
{
    let entries = known.spawned.len();
    let (place, rest) = place(known, above, bytes)?;
    let (locals, rest) = free_values(alloc, entries, rest)?;
    let (stack, rest) = free_values(alloc, entries, rest)?;
    let (defers, rest) = defers(alloc, known, rest)?;
    let frame = FrameShot {
        place,
        locals,
        stack,
        defers,
    };
    Ok((frame, rest))
}

fn some_frames<'a>(
    alloc: Global,
    known: &Known<'_>,
    count: u64,
    bytes: &'a [u8],
) -> Result<(Vec<FrameShot>, &'a [u8]), ReadFault>
    ensures { Gives (λ x. (map frame_of x.0.items, x.1.now)) result
        (frames_from (known_of known.now) count bytes.now) }
{
    let mut frames = Vec::new(alloc);
    let mut rest = bytes;
    'frames: for i in 0..count {
        let (frame, after) = frame(alloc, known, count - 1 - i, rest)?;
        frames.push(frame)?;
        rest = after;
    }
    Ok((frames, rest))
}

/// The frames of a task, the lowest first: from one to as many as steps were spent.
#[tactic(auto, unfolding(run_save_format::specs::Reading::frames_at))]
pub fn frames<'a>(
    alloc: Global,
    known: &Known<'_>,
    bytes: &'a [u8],
) -> Result<(Vec<FrameShot>, &'a [u8]), ReadFault>
    ensures { Gives (λ x. (map frame_of x.0.items, x.1.now)) result
        (frames_at (known_of known.now) bytes.now) }
{
    let (count, rest) = number_in(5, 1, known.numbers.spent, bytes)?;
    some_frames(alloc, known, count, rest)
}
