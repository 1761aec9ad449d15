//! What is kept of the frames of a task.

ghost use Rattle.std.specs.Prelude.{◌≡◌, ◌<◌, ◌-◌, [], length, map, pred, Some, option_map, IfOk};
ghost use Rattle.vm_frames.specs.Calls.{framed_at};
ghost use Rattle.vm_frames.specs.Framed.{Framed};
ghost use Rattle.vm_frames.specs.Machine.{frames_with};
ghost use Rattle.run_save_shots.specs.View.{frame_of};
ghost use Rattle.run_save_shots.specs.Keeping.{frame};
ghost use Rattle.vm_shot_frames.specs.Frames.{kept_frames, depth_among, bare};

use run_save_shots::shots::FrameShot;
use std::alloc::Global;
use verse_base::refusals::Memory;
use verse_value::values::copy_all;
use vm_frames::threads::Thread;

/// What is kept of all frames, the lowest first. The top one stands behind so many arms.
pub fn frames_shot(alloc: Global, thread: &Thread, arms: usize) -> Result<Vec<FrameShot>, Memory>
    ensures { IfOk result (λ fs. map frame_of fs.items ≡
        kept_frames arms (frames_with thread.now [])) }
{
    let mut frames = Vec::new(alloc);
    let mut behind = arms;
    let mut at = thread.depth();
    'frames: while at > 0 {
        at -= 1;
        let frame = frame_shot(alloc, thread, at, behind)?;
        frames.push(frame)?;
        behind = 0;
    }
    frames.reverse();
    Ok(frames)
}

/// What is kept of a frame by its number; that of the lowest is 0.
fn frame_shot(alloc: Global, thread: &Thread, i: u32, arms: usize) -> Result<FrameShot, Memory>
    requires { i < length thread.now }
    ensures { IfOk result (λ f. option_map (λ (g : Framed). frame arms (bare g))
        (framed_at i thread.now) ≡ Some (frame_of f)) }
{
    let place = operation_before(thread.frame_place(i), arms);
    let locals = copy_all(alloc, thread.frame_locals(i))?;
    let stack = copy_all(alloc, thread.frame_stack(i))?;
    let defers = Vec::from_slice(alloc, thread.frame_defers(i))?;
    Ok(FrameShot {
        place,
        locals,
        stack,
        defers,
    })
}

/// The operation behind which a frame stands, and behind so many arms.
fn operation_before(place: u32, arms: usize) -> u32
    ensures { result ≡ pred (place - arms) }
{
    let first = (place as usize).saturating_sub(arms);
    first.saturating_sub(1) as u32
}

/// How many frames are below the highest that began before the child of a number. Takes no memory.
pub fn depth_at(thread: &Thread, number: u64) -> u32
    ensures { result ≡ depth_among number (frames_with thread.now []) }
{
    let mut before: u32 = 0;
    let mut at = thread.depth();
    'frames: while at > 0 {
        at -= 1;
        if number < thread.frame_born(at) {
            before += 1;
        }
    }
    before.saturating_sub(1)
}
