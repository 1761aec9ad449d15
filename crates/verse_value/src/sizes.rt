//! How much a value weighs, how deep it is, and whether a run may have it.

ghost use Rattle.std.specs.Prelude.{◌≡◌, ◌+◌, min};
ghost use Rattle.verse_value.specs.View.{val_of, vals_of};
ghost use Rattle.verse_value.specs.Val.{vals};
ghost use Rattle.verse_value.specs.Sizes.{weight_of, weights, levels_of, most_levels, fits};

use crate::kept::above;
use crate::values::{Value, size_of_all};

/// The greatest weight of a value of a run.
pub const MOST_WEIGHT: u64 = 4000000;

/// The greatest number of levels of a value of a run.
pub const MOST_LEVELS: u64 = 200;

/// The greatest sum of the weights of all cells of a store.
pub const MOST_STORE_WEIGHT: u64 = 16000000;

/// How much a value weighs: a scalar, a reference, `false` and unit 1, every other value 1 and what
/// its parts weigh, a text key of n bytes 1 + n. 18446744073709551615 where it is more. It is kept
/// with the value, and not counted.
pub fn weight(v: &Value) -> u64
    ensures { result ≡ min (weight_of (val_of v.now)) 18446744073709551615 }
{
    v.size().weight
}

/// How much a cell with these slots weighs: 1 and what the slots weigh; 18446744073709551615 where
/// it is more.
pub fn cell_weight(slots: &[Value]) -> u64
    ensures { result ≡ min (1 + weights (vals (vals_of slots.now))) 18446744073709551615 }
{
    above(size_of_all(slots)).weight
}

/// How many levels a value has: an option with a value, an array, a map and a tuple 1 more than the
/// deepest of their parts, every other value and every key 1. 18446744073709551615 where it is
/// more. All parts are visited.
#[cycle(levels)]
pub fn levels(v: &Value) -> u64
    ensures { result ≡ min (levels_of (val_of v.now)) 18446744073709551615 }
{
    match v {
        Value::Some(held) => 1u64.saturating_add(levels(held.part())),
        Value::Array(parts) => 1u64.saturating_add(most_of(parts.as_slice())),
        Value::Map(entries) => 1u64.saturating_add(most_of(entries.values())),
        Value::Tuple(parts) => 1u64.saturating_add(most_of(parts.as_slice())),
        _ => 1,
    }
}

#[cycle(levels)]
fn most_of(values: &[Value]) -> u64
    ensures { result ≡ min (most_levels (vals (vals_of values.now))) 18446744073709551615 }
{
    let mut most = 0u64;
    'values: for value in values {
        most = most.max(levels(value));
    }
    most
}

/// Whether a value is no heavier and no deeper than a value of a run may be. Levels are counted
/// only where the bound that is kept with the value is above 200.
pub fn is_fit(v: &Value) -> bool
    ensures { result ≡ fits (val_of v.now) }
{
    let size = v.size();
    size.weight <= MOST_WEIGHT && (size.levels <= MOST_LEVELS || levels(v) <= MOST_LEVELS)
}
