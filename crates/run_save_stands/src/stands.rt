//! What an operation is to a frame that stands at it.

ghost use Rattle.std.specs.Prelude.{◌≡◌, Some, map};
ghost use Rattle.run_save_shots.specs.View.{frame_of};
ghost use Rattle.run_save_shots.specs.Fitting.{stand_of, stand_at, is_defer, top_place};
ghost use Rattle.run_save_format.specs.Reading.{is_call, suspends, may_stand, is_block};
ghost use Rattle.run_save_stands.specs.View.{as_stand};

use run_save_shots::shots::FrameShot;
use verse_code::codes::Code;
use verse_code::operations::Op;

/// What an operation is to a frame that stands at it.
#[derive(Clone, Copy)]
pub enum Stand {
    Calls,
    Sleeps,
    Stays,
    AwaitsTask,
    AwaitsEvent,
    /// How the group ends, how many arms it has, and the number of its place in the source.
    Gathers { kind: u32, arms: u32, place: u32 },
    GoesOn,
}

fn stand_of(op: Op) -> Stand
    ensures { as_stand result ≡ stand_of op }
{
    match op {
        Op::Call(_) | Op::Method(_, _) => Stand::Calls,
        Op::Sleep(_) => Stand::Sleeps,
        Op::Forever => Stand::Stays,
        Op::AwaitTask => Stand::AwaitsTask,
        Op::AwaitEvent => Stand::AwaitsEvent,
        Op::Group { kind, arms, place } => Stand::Gathers { kind, arms, place },
        _ => Stand::GoesOn,
    }
}

/// What the operation of this index is.
pub fn stand_at(code: &Code, place: u32) -> Stand
    ensures { as_stand result ≡ stand_at code.now place }
{
    match code.ops.get(place as usize) {
        Some(op) => stand_of(*op),
        None => Stand::GoesOn,
    }
}

fn is_call(stand: Stand) -> bool
    ensures { result ≡ is_call (as_stand stand) }
{
    matches!(stand, Stand::Calls)
}

fn suspends(stand: Stand) -> bool
    ensures { result ≡ suspends (as_stand stand) }
{
    !matches!(stand, Stand::Calls | Stand::GoesOn)
}

/// Whether a frame below so many others may stand there in a suspended task: lower ones at a call,
/// the top one where a task is suspended.
#[tactic(auto, using(crate::proofs::StandSteps::at_top, crate::proofs::StandSteps::below_top))]
pub fn may_stand(above: u64, stand: Stand) -> bool
    ensures { result ≡ may_stand above (as_stand stand) }
{
    if above == 0 {
        suspends(stand)
    } else {
        is_call(stand)
    }
}

fn is_defer(op: Op) -> bool
    ensures { result ≡ is_defer (Some op) }
{
    matches!(op, Op::Defer(_))
}

/// Whether a deferred block begins at the operation of this index: behind a Defer.
#[tactic(auto, using(crate::proofs::StandSteps::first_place, crate::proofs::StandSteps::behind_operation))]
pub fn is_block(code: &Code, at: u32) -> bool
    ensures { result ≡ is_block code.now at }
{
    if at == 0 {
        return false;
    }
    match code.ops.get(at as usize - 1) {
        Some(op) => is_defer(*op),
        None => false,
    }
}

/// Where the top frame stands.
pub fn top_place(frames: &[FrameShot]) -> u32
    ensures { result ≡ top_place (map frame_of frames.now) }
{
    match frames.last() {
        Some(frame) => frame.place,
        None => 0,
    }
}
