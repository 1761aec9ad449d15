//! Which spawned entries have a task.

ghost use Rattle.std.specs.Prelude.{◌≡◌, IfOk, length, map, option_map, replicate};
ghost use Rattle.run_save_shots.specs.View.{task_of, given_of};
ghost use Rattle.run_save_format.specs.Whole.{broken_entry};
ghost use Rattle.run_save_whole.specs.Tallies.{counted, with_root, with_roots, wrong_entry};

use crate::fills::fill;
use run_save_shots::shots::TaskShot;
use std::alloc::{AllocError, Global};
use verse_value::values::Value;

/// What stands for two and for more.
const MORE: u8 = 2;

/// One more at a place, where there is one.
pub fn count(counts: &mut [u8], at: usize)
    ensures { counts.new ≡ counted counts.old at }
{
    if at < counts.len() && counts[at] < MORE {
        counts[at] += 1;
    }
}

// One more for the entry of a task without a parent.
fn add_root(counts: &mut [u8], parent: Option<u32>, root: Option<u32>)
    ensures { counts.new ≡ with_root counts.old parent root }
{
    if let (None, Some(entry)) = (parent, root) {
        count(counts, entry as usize);
    }
}

// How many tasks without a parent each entry has, none, one or more.
fn roots(alloc: Global, entries: usize, tasks: &[TaskShot]) -> Result<Vec<u8>, AllocError>
    ensures { IfOk result (λ r. r.items ≡
        with_roots (replicate entries 0) (map task_of tasks.now)) }
{
    let mut counts = fill(alloc, entries, 0u8)?;
    'tasks: for task in tasks {
        add_root(&mut counts, task.parent, task.root);
    }
    Ok(counts)
}

/// The first entry that runs without a task, or with two, or has one though it does not run.
pub fn broken_entry(
    alloc: Global,
    tasks: &[TaskShot],
    spawned: &[Option<(Value, u64)>],
) -> Result<Option<usize>, AllocError>
    ensures { IfOk result (λ r. r ≡
        broken_entry (map task_of tasks.now) 0 (map (option_map given_of) spawned.now)) }
{
    let roots = roots(alloc, spawned.len(), tasks)?;
    Ok(first_wrong(&roots, spawned))
}

fn first_wrong(roots: &[u8], spawned: &[Option<(Value, u64)>]) -> Option<usize>
    requires { length roots.now ≡ length spawned.now }
    ensures { result ≡ wrong_entry roots.now 0 (map (option_map given_of) spawned.now) }
{
    'entries: for i in 0..spawned.len() {
        let runs = if spawned[i].is_none() { 1 } else { 0 };
        if roots[i] != runs {
            return Some(i);
        }
    }
    None
}
