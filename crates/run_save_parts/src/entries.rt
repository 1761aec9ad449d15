//! Spawned entries are read.

ghost use Rattle.std.specs.Prelude.{◌≡◌, [], Ok, map, option_map};
ghost use Rattle.verse_image.specs.Reading.{Gives};
ghost use Rattle.run_save_shots.specs.View.{given_of};
ghost use Rattle.run_save_format.specs.Values.{each_at};
ghost use Rattle.run_save_format.specs.Reading.{maybe_at, given_at, entry_at, spawned_at};

use crate::counts::at_most;
use crate::outside::free_value;
use run_save_values::numbers::{number_in, wide};
use std::alloc::Global;
use verse_image::faults::ReadFault;
use verse_value::values::Value;

/// The spawned entries of a saved run.
#[derive(Drop)]
pub struct Spawned {
    /// What each task gave, and when; `None` while it runs.
    pub spawned: Vec<Option<(Value, u64)>>,
    /// How many bytes were left at each.
    pub lefts: Vec<usize>,
}

#[tactic(auto, unfolding(run_save_format::specs::Reading::given_at))]
fn given(alloc: Global, entries: usize, bytes: &[u8]) -> Result<((Value, u64), &[u8]), ReadFault>
    ensures { Gives (λ x. (given_of x.0, x.1.now)) result (given_at entries bytes.now) }
{
    let (value, rest) = free_value(alloc, entries, bytes)?;
    let (moment, rest) = wide(rest)?;
    Ok(((value, moment), rest))
}

#[tactic(auto, unfolding(run_save_format::specs::Reading::maybe_at))]
fn entry(
    alloc: Global,
    entries: usize,
    bytes: &[u8],
) -> Result<(Option<(Value, u64)>, &[u8]), ReadFault>
    ensures { Gives (λ x. (option_map given_of x.0, x.1.now)) result
        (maybe_at (given_at entries) bytes.now) }
{
    let (form, rest) = number_in(4, 0, 1, bytes)?;
    if form == 0 {
        return Ok((None, rest));
    }
    let (given, rest) = given(alloc, entries, rest)?;
    Ok((Some(given), rest))
}

// So many entries among so many.
fn some_entries(
    alloc: Global,
    entries: usize,
    count: u64,
    bytes: &[u8],
) -> Result<(Spawned, &[u8]), ReadFault>
    ensures { Gives (λ x. ((map (option_map given_of) x.0.spawned.items, x.0.lefts.items), x.1.now))
        result (each_at (entry_at entries) count [] bytes.now) }
{
    let mut spawned = Vec::new(alloc);
    let mut lefts = Vec::new(alloc);
    let mut rest = bytes;
    'entries: for _i in 0..count {
        let (entry, after) = entry(alloc, entries, rest)?;
        lefts.push(rest.len())?;
        spawned.push(entry)?;
        rest = after;
    }
    Ok((Spawned { spawned, lefts }, rest))
}

/// The spawned entries, at most as many as steps were spent.
#[tactic(auto, unfolding(run_save_format::specs::Reading::spawned_at))]
pub fn read_spawned(alloc: Global, spent: u64, bytes: &[u8]) -> Result<(Spawned, &[u8]), ReadFault>
    ensures { Gives (λ x. ((map (option_map given_of) x.0.spawned.items, x.0.lefts.items), x.1.now))
        result (spawned_at spent bytes.now) }
{
    let (count, rest) = at_most(spent, bytes)?;
    some_entries(alloc, count as usize, count, rest)
}
