//! Whole values are read.

ghost use Rattle.std.specs.Prelude.{◌≡◌, Ok};
ghost use Rattle.verse_image.specs.Reading.{Gives};
ghost use Rattle.verse_value.specs.View.{val_of, vals_of};
ghost use Rattle.run_save_format.specs.Values.{each_at, value_at};

use crate::parts::value_part;
use run_save_format::weights::{Load, Where};
use std::alloc::Global;
use verse_image::faults::ReadFault;
use verse_value::sizes::MOST_LEVELS;
use verse_value::values::Value;

/// A value, and what all cells weigh with it, where those read so far weigh so much.
#[tactic(auto, unfolding(run_save_format::specs::Values::value_at))]
pub fn value(
    alloc: Global,
    place: Where,
    cells: u64,
    bytes: &[u8],
) -> Result<(Value, u64, &[u8]), ReadFault>
    ensures { Gives (λ x. ((val_of x.0, x.1), x.2.now)) result (value_at place cells bytes.now) }
{
    let load = Load { value: 0, cells };
    let (value, load, rest) = value_part(alloc, place, MOST_LEVELS, load, bytes)?;
    Ok((value, load.cells, rest))
}

/// So many values.
pub fn values(
    alloc: Global,
    place: Where,
    count: u64,
    cells: u64,
    bytes: &[u8],
) -> Result<(Vec<Value>, u64, &[u8]), ReadFault>
    ensures { Gives (λ x. ((vals_of x.0.items, x.1), x.2.now)) result
        (each_at (value_at place) count cells bytes.now) }
{
    let mut values = Vec::new(alloc);
    let mut rest = bytes;
    let mut cells = cells;
    'values: for _i in 0..count {
        let (value, more, after) = value(alloc, place, cells, rest)?;
        values.push(value)?;
        cells = more;
        rest = after;
    }
    Ok((values, cells, rest))
}
