//! Values outside of cells are read, among so many spawned entries.

ghost use Rattle.std.specs.Prelude.{◌≡◌, Ok};
ghost use Rattle.verse_image.specs.Reading.{Gives};
ghost use Rattle.verse_value.specs.View.{val_of, vals_of};
ghost use Rattle.run_save_format.specs.Reading.{free_value_at, free_values_at};

use run_save_format::weights::Where;
use run_save_values::numbers::wide;
use run_save_values::wholes::{value, values};
use std::alloc::Global;
use verse_image::faults::ReadFault;
use verse_value::values::Value;

/// A value.
#[tactic(auto, unfolding(run_save_format::specs::Reading::free_value_at))]
pub fn free_value(alloc: Global, entries: usize, bytes: &[u8]) -> Result<(Value, &[u8]), ReadFault>
    ensures { Gives (λ x. (val_of x.0, x.1.now)) result (free_value_at entries bytes.now) }
{
    let (value, _, rest) = value(alloc, Where::Among(entries), 0, bytes)?;
    Ok((value, rest))
}

/// A list of values.
#[tactic(auto, unfolding(run_save_format::specs::Reading::free_values_at, run_save_format::specs::Values::values_at))]
pub fn free_values(
    alloc: Global,
    entries: usize,
    bytes: &[u8],
) -> Result<(Vec<Value>, &[u8]), ReadFault>
    ensures { Gives (λ x. (vals_of x.0.items, x.1.now)) result (free_values_at entries bytes.now) }
{
    let (count, rest) = wide(bytes)?;
    let (values, _, rest) = values(alloc, Where::Among(entries), count, 0, rest)?;
    Ok((values, rest))
}
