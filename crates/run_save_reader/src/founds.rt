//! The parts of a saved run are read.

ghost use Rattle.std.specs.Prelude.{◌≡◌, Ok, map};
ghost use Rattle.verse_image.specs.Reading.{Gives};
ghost use Rattle.run_save_shots.specs.View.{task_of, shot_of};
ghost use Rattle.run_save_format.specs.Reading.{tasks_at, ended, parts_found_at};
ghost use Rattle.run_save_format.specs.Whole.{run_at};
ghost use Rattle.run_save_whole.specs.View as whole;
ghost use Rattle.run_save_reader.specs.View.{known_with, found_with};

use crate::starts::after_mark;
use run_save_format::weights::Numbers;
use run_save_parts::cells::{Cells, read_cells};
use run_save_parts::codes::code;
use run_save_parts::counts::numbers;
use run_save_parts::entries::{Spawned, read_spawned};
use run_save_shots::shots::Shot;
use run_save_tasks::known::Known;
use run_save_tasks::tasks::{Tasks, read_tasks};
use run_save_whole::firsts::{Lefts, broken};
use std::alloc::Global;
use verse_code::codes::Code;
use verse_image::faults::ReadFault;
use verse_image::numbers::bad;

/// The parts as they were read, and how many bytes were left at each.
#[derive(Drop)]
pub struct Found {
    pub code: Code,
    pub shot: Shot,
    pub lefts: Lefts,
}

fn all_tasks<'a>(
    alloc: Global,
    code: &Code,
    numbers: Numbers,
    cells: &Cells,
    spawned: &Spawned,
    bytes: &'a [u8],
) -> Result<(Tasks, &'a [u8]), ReadFault>
    ensures { Gives (λ x. ((map task_of x.0.tasks.items, x.0.lefts.items), x.1.now)) result
        (tasks_at (known_with code.now numbers cells.now spawned.now) bytes.now) }
{
    let known = Known {
        code,
        numbers,
        cells: &cells.cells,
        spawned: &spawned.spawned,
    };
    read_tasks(alloc, &known, bytes)
}

fn together(code: Code, numbers: Numbers, cells: Cells, spawned: Spawned, tasks: Tasks) -> Found
    ensures { whole.found result.code result.shot result.lefts ≡
        found_with code numbers cells spawned tasks }
{
    Found {
        code,
        shot: Shot {
            left: numbers.left,
            spent: numbers.spent,
            now: numbers.now,
            next: numbers.next,
            bytes: numbers.bytes,
            lines: numbers.lines,
            cells: cells.cells,
            spawned: spawned.spawned,
            tasks: tasks.tasks,
        },
        lefts: Lefts {
            cells: cells.lefts,
            entries: spawned.lefts,
            tasks: tasks.lefts,
        },
    }
}

fn ended(found: Found, rest: &[u8]) -> Result<Found, ReadFault>
    ensures { Gives (λ x. whole.found x.code x.shot x.lefts) result
        (ended (whole.found found.code found.shot found.lefts) rest.now) }
{
    if rest.is_empty() {
        Ok(found)
    } else {
        Err(bad(6, rest.len()))
    }
}

#[tactic(auto, unfolding(run_save_format::specs::Reading::parts_found_at))]
fn parts(alloc: Global, bytes: &[u8]) -> Result<Found, ReadFault>
    ensures { Gives (λ x. whole.found x.code x.shot x.lefts) result (parts_found_at bytes.now) }
{
    let rest = after_mark(bytes)?;
    let (code, rest) = code(alloc, rest)?;
    let (numbers, rest) = numbers(rest)?;
    let (cells, rest) = read_cells(alloc, code.classes.as_slice(), rest)?;
    let (spawned, rest) = read_spawned(alloc, numbers.spent, rest)?;
    let (tasks, rest) = all_tasks(alloc, &code, numbers, &cells, &spawned, rest)?;
    ended(together(code, numbers, cells, spawned, tasks), rest)
}

/// The code and the shot that the bytes spell.
#[tactic(auto, unfolding(run_save_format::specs::Whole::run_at))]
pub fn run(alloc: Global, bytes: &[u8]) -> Result<(Code, Shot), ReadFault>
    ensures { Gives (λ x. (x.0, shot_of x.1)) result (run_at bytes.now) }
{
    let found = parts(alloc, bytes)?;
    match broken(alloc, &found.code, &found.shot, &found.lefts)? {
        Some(left) => Err(bad(5, left)),
        None => {
            let Found {
                code,
                shot,
                lefts: _,
            } = found;
            Ok((code, shot))
        }
    }
}
