//! Tasks are read.

ghost use Rattle.std.specs.Prelude.{◌≡◌, [], Ok, map};
ghost use Rattle.verse_image.specs.Reading.{Gives};
ghost use Rattle.run_save_shots.specs.View.{task_of};
ghost use Rattle.run_save_format.specs.Values.{each_at};
ghost use Rattle.run_save_format.specs.Reading.{noted_at, root_at, standing_at, task_at, tasks_at};
ghost use Rattle.run_save_tasks.specs.View.{known_of};

use crate::frames::frames;
use crate::known::Known;
use crate::rests::rest;
use crate::waits::Waits;
use run_save_parts::counts::at_most;
use run_save_shots::shots::TaskShot;
use run_save_stands::stands::{stand_at, top_place};
use run_save_values::numbers::{number_in, optional, small};
use std::alloc::Global;
use task_tree::tasks::Role;
use verse_image::faults::ReadFault;
use verse_image::numbers::bad;

/// The tasks of a saved run.
#[derive(Drop)]
pub struct Tasks {
    pub tasks: Vec<TaskShot>,
    /// How many bytes were left at each.
    pub lefts: Vec<usize>,
}

// The entry of a task without a parent; Main has none.
#[tactic(auto, unfolding(run_save_format::specs::Reading::root_at))]
fn root<'a>(known: &Known<'_>, bytes: &'a [u8]) -> Result<(Option<u32>, &'a [u8]), ReadFault>
    ensures { Gives (λ x. (x.0, x.1.now)) result (root_at (known_of known.now) bytes.now) }
{
    let (root, rest) = optional(bytes)?;
    match root {
        Some(entry) => {
            if (entry as usize) < known.spawned.len() {
                Ok((Some(entry), rest))
            } else {
                Err(bad(5, bytes.len()))
            }
        }
        None => Ok((None, rest)),
    }
}

// The role of a task, and its entry.
#[tactic(auto, unfolding(run_save_format::specs::Reading::standing_at))]
fn standing<'a>(
    known: &Known<'_>,
    parent: Option<u32>,
    bytes: &'a [u8],
) -> Result<(Role, Option<u32>, &'a [u8]), ReadFault>
    ensures { Gives (λ x. ((x.0, x.1), x.2.now)) result
        (standing_at (known_of known.now) parent bytes.now) }
{
    match parent {
        None => {
            let (root, rest) = root(known, bytes)?;
            Ok((Role::Root, root, rest))
        }
        Some(_) => {
            let (form, rest) = number_in(4, 0, 1, bytes)?;
            let (number, rest) = small(rest)?;
            let role = if form == 0 {
                Role::Arm(number)
            } else {
                Role::Behind(number)
            };
            Ok((role, None, rest))
        }
    }
}

// A task. The number of its wait is added.
#[tactic(auto, unfolding(run_save_format::specs::Reading::task_at))]
fn task<'a>(
    alloc: Global,
    known: &Known<'_>,
    waits: &mut Waits,
    bytes: &'a [u8],
) -> Result<(TaskShot, &'a [u8]), ReadFault>
    ensures { Gives (λ x. ((task_of x.0, waits.new), x.1.now)) result
        (task_at (known_of known.now) waits.old bytes.now) }
{
    let (parent, after) = optional(bytes)?;
    let (role, root, after) = standing(known, parent, after)?;
    let (frames, after) = frames(alloc, known, after)?;
    let stand = stand_at(known.code, top_place(&frames));
    let (rest, after) = rest(alloc, known, stand, waits, after)?;
    let task = TaskShot {
        parent,
        role,
        root,
        frames,
        rest,
    };
    Ok((task, after))
}

// So many tasks, and the numbers of their waits.
fn some_tasks<'a>(
    alloc: Global,
    known: &Known<'_>,
    count: u64,
    bytes: &'a [u8],
) -> Result<(Tasks, Waits, &'a [u8]), ReadFault>
    ensures { Gives (λ x. ((map task_of x.0.tasks.items, (x.1, x.0.lefts.items)), x.2.now)) result
        (each_at (noted_at (task_at (known_of known.now))) count ([], []) bytes.now) }
{
    let mut tasks = Vec::new(alloc);
    let mut lefts = Vec::new(alloc);
    let mut waits = Waits::new(alloc);
    let mut after = bytes;
    'tasks: for _i in 0..count {
        let (task, behind) = task(alloc, known, &mut waits, after)?;
        lefts.push(after.len())?;
        tasks.push(task)?;
        after = behind;
    }
    Ok((Tasks { tasks, lefts }, waits, after))
}

/// The tasks, at most as many as steps were spent.
#[tactic(auto, unfolding(run_save_format::specs::Reading::tasks_at))]
pub fn read_tasks<'a>(
    alloc: Global,
    known: &Known<'_>,
    bytes: &'a [u8],
) -> Result<(Tasks, &'a [u8]), ReadFault>
    ensures { Gives (λ x. ((map task_of x.0.tasks.items, x.0.lefts.items), x.1.now)) result
        (tasks_at (known_of known.now) bytes.now) }
{
    let (count, after) = at_most(known.numbers.spent, bytes)?;
    let (tasks, _, after) = some_tasks(alloc, known, count, after)?;
    Ok((tasks, after))
}
