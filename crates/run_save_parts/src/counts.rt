//! The numbers of a saved run are read.

ghost use Rattle.std.specs.Prelude.{◌≡◌, ◌≤◌, Ok, IfOk};
ghost use Rattle.verse_image.specs.Reading.{Gives};
ghost use Rattle.run_save_format.specs.Reading.{at_most, numbers_at};

use run_save_format::weights::Numbers;
use run_save_values::numbers::number_in;
use verse_base::limits::{MOST_NOW, MOST_STEPS, MOST_TRACE_BYTES};
use verse_image::faults::ReadFault;

/// A number that breaks a rule (S5) where it is above `most`.
pub fn at_most(most: u64, bytes: &[u8]) -> Result<(u64, &[u8]), ReadFault>
    ensures reads { Gives (λ x. (x.0, x.1.now)) result (at_most most bytes.now) }
    ensures most { IfOk result (λ x. x.0 ≤ most) }
{
    number_in(5, 0, most, bytes)
}

/// The six numbers.
#[tactic(auto, unfolding(run_save_format::specs::Reading::numbers_at))]
pub fn numbers(bytes: &[u8]) -> Result<(Numbers, &[u8]), ReadFault>
    ensures { Gives (λ x. (x.0, x.1.now)) result (numbers_at bytes.now) }
{
    let (left, rest) = at_most(MOST_STEPS, bytes)?;
    let (spent, rest) = at_most(MOST_STEPS - left, rest)?;
    let (now, rest) = at_most(MOST_NOW, rest)?;
    let (next, rest) = at_most(spent, rest)?;
    let (printed, rest) = at_most(MOST_TRACE_BYTES, rest)?;
    let (lines, rest) = at_most(printed, rest)?;
    let numbers = Numbers {
        left,
        spent,
        now,
        next,
        bytes: printed,
        lines,
    };
    Ok((numbers, rest))
}
