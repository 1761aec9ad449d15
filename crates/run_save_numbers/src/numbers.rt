//! The numbers of all tasks.

ghost use Rattle.std.specs.Prelude.{◌≡◌, map, IfOk};
ghost use Rattle.run_save_shots.specs.View.{shot_of};
ghost use Rattle.run_save_numbers.specs.Numbers.{Countable, numbers_from};
ghost use Rattle.run_save_numbers.specs.View.{numbers_of};

use crate::marks::{marks, number};
use crate::settling::settle;
use crate::tables::TaskNumbers;
use run_save_shots::shots::Shot;
use std::alloc::Global;
use verse_base::refusals::Memory;

/// The numbers of each task, of its frames and of the children that are arms of its group. The time
/// goes with the number of tasks, frames and arms together.
pub fn numbers(alloc: Global, shot: &Shot) -> Result<Vec<TaskNumbers>, Memory>
    requires { Countable (shot_of shot.now) }
    ensures { IfOk result (λ ns. map numbers_of ns.items ≡
        numbers_from (shot_of shot.entry.now) 0 (shot_of shot.entry.now).tasks) }
{
    let mut all = marks(alloc, shot)?;
    'tasks: for i in 0..all.len() {
        let own = number(shot, all.len() - i);
        settle(&mut all[i], own);
    }
    Ok(all)
}
