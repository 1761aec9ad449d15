//! A suspended task.

ghost use Rattle.std.specs.Prelude.{◌≡◌, ◌<◌, length, map, option_map, IfOk};
ghost use Rattle.verse_value.specs.View.{val_of};
ghost use Rattle.run_save_shots.specs.View.{task_of, frame_of};
ghost use Rattle.run_save_numbers.specs.View.{numbers_of};
ghost use Rattle.run_save_slots.specs.Slots.{root_of, Suits, FramesSuit, IsMade, IsAsleep};
ghost use Rattle.run_save_slots.specs.Slots.{IsAtGroup};

use crate::groups::group_of;
use crate::threads::rebuild;
use run_save_numbers::tables::TaskNumbers;
use run_save_shots::shots::{FrameShot, RestShot, TaskShot};
use sim_clock::waits::WaitKind;
use std::alloc::Global;
use verse_base::refusals::Memory;
use verse_code::codes::Code;
use verse_value::values::Value;
use vm_frames::threads::Thread;
use vm_tasks::slots::{Held, Root, Slot};

fn root_of(parent: Option<u32>, root: Option<u32>) -> Root
    ensures { result ≡ root_of parent root }
{
    match (parent, root) {
        (Some(_), _) => Root::Part,
        (None, Some(entry)) => Root::Spawned(entry),
        (None, None) => Root::Main,
    }
}

/// It waits by itself.
fn asleep(
    alloc: Global,
    frames: Vec<FrameShot>,
    number: u64,
    kind: WaitKind,
    numbers: &TaskNumbers,
) -> Result<Held<Thread>, Memory>
    requires { FramesSuit (map frame_of frames.items) 0 (numbers_of numbers.now) }
    ensures { IfOk result (IsAsleep (map frame_of frames.items) number kind
        (numbers_of numbers.now)) }
{
    let thread = rebuild(alloc, frames, &numbers.borns, 0)?;
    Ok(Held::Asleep(thread, number, kind))
}

/// It stands at the group of an operation.
#[tactic(auto, using(crate::specs::Slots::is_at_group))]
fn at_group(
    alloc: Global,
    code: &Code,
    frames: Vec<FrameShot>,
    arms: Vec<Option<Value>>,
    numbers: &TaskNumbers,
) -> Result<Held<Thread>, Memory>
    requires frames { FramesSuit (map frame_of frames.items) (length arms.items)
        (numbers_of numbers.now) }
    requires arms { length numbers.now.arms.items ≡ length arms.items }
    requires few { length arms.items < 4294967295 }
    ensures { IfOk result (IsAtGroup code.now (map frame_of frames.items)
        (map (option_map val_of) arms.items) (numbers_of numbers.now)) }
{
    let count = arms.len() as u32;
    let group = group_of(alloc, code, &frames, arms, &numbers.arms)?;
    let thread = rebuild(alloc, frames, &numbers.borns, count)?;
    Ok(Held::AtGroup(thread, group))
}

/// What a tree of tasks keeps of a suspended task, by its numbers.
#[tactic(auto, using(crate::specs::Slots::waits_asleep, crate::specs::Slots::waits_at_group))]
pub fn suspended(
    alloc: Global,
    code: &Code,
    task: TaskShot,
    numbers: &TaskNumbers,
) -> Result<Slot<Thread>, Memory>
    requires { Suits (task_of task) (numbers_of numbers.now) }
    ensures { IfOk result (IsMade code.now (task_of task) (numbers_of numbers.now)) }
{
    let TaskShot {
        parent,
        role: _,
        root,
        frames,
        rest,
    } = task;
    let held = match rest {
        RestShot::Leaf(number, kind) => asleep(alloc, frames, number, kind, numbers)?,
        RestShot::Group(arms) => at_group(alloc, code, frames, arms, numbers)?,
    };
    Ok(Slot {
        number: numbers.own,
        since: numbers.above + 1,
        root: root_of(parent, root),
        held,
    })
}
