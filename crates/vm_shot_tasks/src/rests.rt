//! What is kept of the frames of a task, and of what it waits for.

ghost use Rattle.std.specs.Prelude.{◌≡◌, List, map, option_map, IfOk};
ghost use Rattle.verse_code_machine.specs.Tasks.{Frame};
ghost use Rattle.verse_value.specs.View.{val_of};
ghost use Rattle.vm_frames.specs.Framed.{Framed};
ghost use Rattle.vm_tasks.specs.View.{part_of, held_of};
ghost use Rattle.run_save_shots.specs.Keeping.{arm};
ghost use Rattle.run_save_shots.specs.View.{frame_of, rest_of};
ghost use Rattle.vm_shot_laws.specs.Tree.{held_frames, held_rest};
ghost use Rattle.vm_shot_tasks.specs.Holding.{AreFrames, HasFrames};

use run_save_shots::shots::{FrameShot, RestShot};
use std::alloc::Global;
use verse_base::refusals::Memory;
use verse_value::values::Value;
use vm_frames::threads::Thread;
use vm_shot_frames::frames::frames_shot;
use vm_tasks::slots::{Arm, Held};

/// What is kept of the frames.
pub(crate) fn held_shot(alloc: Global, held: &Held<Thread>) -> Result<Vec<FrameShot>, Memory>
    requires { HasFrames held.now }
    ensures { IfOk result (λ fs. (frames : List Framed → Frame × List Frame) → AreFrames frames →
        map frame_of fs.items ≡ held_frames (held_of frames held.now)) }
{
    match held {
        Held::ByMachine => Ok(Vec::new(alloc)),
        Held::Asleep(thread, _, _) => frames_shot(alloc, thread, 0),
        Held::AtGroup(thread, group) => frames_shot(alloc, thread, group.arms.len()),
    }
}

/// What is kept of what the task waits for.
pub(crate) fn rest_shot(alloc: Global, held: &Held<Thread>) -> Result<RestShot, Memory>
    ensures { IfOk result (λ r. (frames : List Framed → Frame × List Frame) →
        rest_of r ≡ held_rest (held_of frames held.now)) }
{
    match held {
        Held::ByMachine => Ok(RestShot::Group(Vec::new(alloc))),
        Held::Asleep(_, number, kind) => Ok(RestShot::Leaf(*number, *kind)),
        Held::AtGroup(_, group) => Ok(RestShot::Group(arms_shot(alloc, group.arms.as_slice())?)),
    }
}

/// What the arms of a group gave.
fn arms_shot(alloc: Global, arms: &[Arm]) -> Result<Vec<Option<Value>>, Memory>
    ensures { IfOk result (λ vs. map (option_map val_of) vs.items ≡ map arm (map part_of arms.now)) }
{
    let mut given = Vec::new(alloc);
    'arms: for arm in arms {
        let value = arm_shot(alloc, arm)?;
        given.push(value)?;
    }
    Ok(given)
}

fn arm_shot(alloc: Global, part: &Arm) -> Result<Option<Value>, Memory>
    ensures { IfOk result (λ v. option_map val_of v ≡ arm (part_of part.now)) }
{
    match part {
        Arm::Did(value) => Ok(Some(value.copy(alloc)?)),
        Arm::Runs(_) => Ok(None),
    }
}
