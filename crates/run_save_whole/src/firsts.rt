//! The first part that breaks a rule on the whole list.

ghost use Rattle.std.specs.Prelude.{◌≡◌, IfOk};
ghost use Rattle.run_save_whole.specs.View.{found};
ghost use Rattle.run_save_format.specs.Whole.{broken, left_at};

use crate::cells::broken_cell;
use crate::roots::broken_entry;
use crate::tasks::broken_task;
use run_save_shots::shots::Shot;
use std::alloc::{AllocError, Global};
use verse_code::codes::Code;

/// How many bytes are left at each part.
#[derive(Drop)]
pub struct Lefts {
    pub cells: Vec<usize>,
    pub entries: Vec<usize>,
    pub tasks: Vec<usize>,
}

fn left_at(lefts: &[usize], place: Option<usize>) -> Option<usize>
    ensures { result ≡ left_at lefts.now place }
{
    match place {
        Some(place) => lefts.get(place).copied(),
        None => None,
    }
}

/// How many bytes are left at the first part that breaks a rule. Cells stand before entries, and
/// these before tasks.
pub fn broken(
    alloc: Global,
    code: &Code,
    shot: &Shot,
    lefts: &Lefts,
) -> Result<Option<usize>, AllocError>
    ensures { IfOk result (λ r. r ≡ broken (found code.now shot.entry.now lefts.now)) }
{
    let cell = left_at(&lefts.cells, broken_cell(shot.spawned.len(), &shot.cells));
    if cell.is_some() {
        return Ok(cell);
    }
    let entry = broken_entry(alloc, &shot.tasks, &shot.spawned)?;
    let entry = left_at(&lefts.entries, entry);
    if entry.is_some() {
        return Ok(entry);
    }
    let task = broken_task(alloc, code, shot.spent, &shot.tasks)?;
    Ok(left_at(&lefts.tasks, task))
}
