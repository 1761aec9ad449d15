//! The first task that breaks a rule on the whole list.

ghost use Rattle.std.specs.Prelude.{◌≡◌, ◌≤◌, ◌+◌, suc, ◌||◌, [], None, IfOk, length, map};
ghost use Rattle.run_save_shots.specs.View.{task_of};
ghost use Rattle.run_save_shots.specs.Fitting.{is_root, arms_of};
ghost use Rattle.run_save_format.specs.Whole.{broken_task};
ghost use Rattle.run_save_whole.specs.Tallies.{with_child, all_marks, breaks_at, wrong_task};
ghost use Rattle.run_save_whole.specs.View.{marks_of};

use crate::arms::{Arms, all_arms};
use crate::fills::fill;
use crate::groups::rest_breaks;
use crate::order::{Floor, OPEN_FLOOR, add_child, is_low};
use crate::tests::{child_breaks, is_later, is_main};
use run_save_shots::shots::TaskShot;
use std::alloc::{AllocError, Global};
use verse_code::codes::Code;

/// What was seen of the tasks before one.
#[derive(Drop)]
pub struct Seen {
    /// Whether Main was among them.
    pub has_main: bool,
    /// For each task where a child may stand that comes now.
    pub floors: Vec<Floor>,
    /// How many frames they have.
    pub frames: u128,
}

fn add(seen: &mut Seen, task: &TaskShot)
    requires { seen.old.frames ≤ 18446744073709551616 }
    ensures main { seen.new.has_main ≡ (seen.old.has_main || is_root None (task_of task.now)) }
    ensures floors { seen.new.floors.items ≡
        with_child seen.old.floors.items task.now.parent task.now.role }
    ensures frames { seen.new.frames ≡ seen.old.frames + length (task_of task.now).frames }
{
    seen.has_main = seen.has_main || is_main(task);
    add_child(&mut seen.floors, task.parent, task.role);
    seen.frames += task.frames.len() as u128;
}

// Whether the task at a place breaks a rule, which has these arms, where so much was seen.
fn breaks(
    code: &Code,
    spent: u64,
    tasks: &[TaskShot],
    at: usize,
    task: &TaskShot,
    arms: &Arms,
    seen: &Seen,
) -> bool
    requires arms { length arms.now.counts.items ≡ length (arms_of (task_of task.now).rest) }
    requires frames { seen.now.frames ≤ suc spent }
    ensures { result ≡ breaks_at code.now spent (map task_of tasks.now) at (marks_of arms.now)
        seen.now.has_main seen.now.floors.items seen.now.frames (task_of task.now) }
{
    is_later(at, task.parent)
        || (is_main(task) && seen.has_main)
        || child_breaks(tasks, task.parent, task.role)
        || is_low(&seen.floors, task.parent, task.role)
        || rest_breaks(code, task, arms)
        || spent as u128 + 1 < seen.frames + task.frames.len() as u128
}

/// The first task that breaks a rule, where so many steps were spent.
pub fn broken_task(
    alloc: Global,
    code: &Code,
    spent: u64,
    tasks: &[TaskShot],
) -> Result<Option<usize>, AllocError>
    ensures { IfOk result (λ r. r ≡
        broken_task code.now spent (map task_of tasks.now) [] 0 (map task_of tasks.now)) }
{
    let arms = all_arms(alloc, tasks)?;
    let floors = fill(alloc, tasks.len(), OPEN_FLOOR)?;
    let seen = Seen {
        has_main: false,
        floors,
        frames: 0,
    };
    Ok(first_wrong(code, spent, tasks, &arms, seen))
}

fn first_wrong(
    code: &Code,
    spent: u64,
    tasks: &[TaskShot],
    arms: &[Arms],
    seen: Seen,
) -> Option<usize>
    requires arms { map marks_of arms.now ≡ all_marks (map task_of tasks.now) }
    requires frames { seen.frames ≤ suc spent }
    ensures { result ≡ wrong_task code.now spent (map task_of tasks.now) (map marks_of arms.now) 0
        seen.has_main seen.floors.items seen.frames (map task_of tasks.now) }
{
    let mut seen = seen;
    'tasks: for i in 0..tasks.len() {
        let task = &tasks[i];
        if breaks(code, spent, tasks, i, task, &arms[i], &seen) {
            return Some(i);
        }
        add(&mut seen, task);
    }
    None
}
