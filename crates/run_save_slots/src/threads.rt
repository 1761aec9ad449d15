//! Frames one on another.

ghost use Rattle.std.specs.Prelude.{◌≡◌, ◌+◌, ◌≤◌, ◌<◌, [], length, map, IfOk, OnOk};
ghost use Rattle.run_save_shots.specs.View.{frame_of};
ghost use Rattle.run_save_shots.specs.Lists.{Each};
ghost use Rattle.run_save_slots.specs.Stacking.{with_frame, arms_under, stacked, IsNear};
ghost use Rattle.run_save_slots.specs.Stacking.{SpellsFrames};

use run_save_shots::shots::FrameShot;
use std::alloc::Global;
use verse_base::refusals::Memory;
use vm_frames::threads::Thread;

/// A frame more on top. It goes on behind its operation and so many arms.
fn add(thread: &mut Thread, frame: FrameShot, born: u64, arms: u32) -> Result<(), Memory>
    requires few { length thread.old < 4294967295 }
    requires near { frame.place + arms < 4294967295 }
    ensures { OnOk result (thread.new ≡ with_frame born arms (frame_of frame) thread.old) }
{
    let FrameShot {
        place,
        locals,
        stack,
        defers,
    } = frame;
    thread.add_frame(place + 1 + arms, locals, stack, defers, born)
}

/// How many arms stand behind the operation of a frame above which there are so many.
fn arms_behind(above: usize, arms: u32) -> u32
    ensures { result ≡ arms_under above arms }
{
    if above == 0 { arms } else { 0 }
}

/// The frames one on another.
fn stack_up(
    alloc: Global,
    frames: Vec<FrameShot>,
    borns: &[u64],
    arms: u32,
) -> Result<Thread, Memory>
    requires borns { length borns.now ≡ length frames.items }
    requires few { length frames.items < 4294967295 }
    requires near { Each (IsNear arms) (map frame_of frames.items) }
    ensures { IfOk result (λ t. t ≡ stacked arms borns.now (map frame_of frames.items) []) }
{
    let mut frames = frames;
    frames.reverse();
    let mut thread = Thread::empty(alloc);
    let mut at = 0;
    'frames: while let Some(frame) = frames.pop() {
        let behind = arms_behind(frames.len(), arms);
        add(&mut thread, frame, borns[at], behind)?;
        at += 1;
    }
    Ok(thread)
}

/// The frames of a task, the lowest first, with the steps that were left when each began. The top
/// one goes on behind its operation and so many arms, and each other one behind its operation.
pub fn rebuild(
    alloc: Global,
    frames: Vec<FrameShot>,
    borns: &[u64],
    arms: u32,
) -> Result<Thread, Memory>
    requires borns { length borns.now ≡ length frames.items }
    requires few { length frames.items < 4294967295 }
    requires near { Each (IsNear arms) (map frame_of frames.items) }
    ensures stacked { IfOk result (λ t. t ≡
        stacked arms borns.now (map frame_of frames.items) []) }
    ensures spells { IfOk result (SpellsFrames arms borns.now (map frame_of frames.items)) }
{
    let thread = stack_up(alloc, frames, borns, arms)?;
    Ok(thread)
}
