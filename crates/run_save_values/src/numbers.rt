//! Numbers of a saved run are read.

ghost use Rattle.std.specs.Prelude.{◌≡◌, ◌<◌, ◌≤◌, Ok, IfOk};
ghost use Rattle.verse_image.specs.Reading.{Gives, digits_at};
ghost use Rattle.run_save_format.specs.Values.{wide_at, number_in, small_at, optional_at};

use verse_image::faults::ReadFault;
use verse_image::numbers::{bad, byte};

/// The greatest number of bytes of a number.
const WIDE_BYTES: u8 = 10;
/// What a number is below.
const WIDE_END: u128 = 18_446_744_073_709_551_616;
/// The greatest number of 32 bits.
const MOST_SMALL: u64 = 4_294_967_295;

#[tactic(auto, using(verse_image::proofs::ReadingSteps::digits_none, verse_image::proofs::ReadingSteps::digits_some))]
fn digits(most: u8, left: usize, bytes: &[u8]) -> Result<(u64, &[u8]), ReadFault>
    ensures { Gives (λ x. (x.0, x.1.now)) result
        (digits_at most 18446744073709551616 left bytes.now) }
{
    if most == 0 {
        return Err(bad(4, left));
    }
    let (first, rest) = byte(bytes)?;
    if first < 128 {
        return Ok((first as u64, rest));
    }
    let (high, rest) = digits(most - 1, left, rest)?;
    let number = first as u128 - 128 + 128 * high as u128;
    let limit = WIDE_END;
    if high > 0 && number < limit {
        Ok((number as u64, rest))
    } else {
        Err(bad(4, left))
    }
}

/// A number of at most 64 bits.
#[tactic(auto, unfolding(run_save_format::specs::Values::wide_at))]
pub fn wide(bytes: &[u8]) -> Result<(u64, &[u8]), ReadFault>
    ensures { Gives (λ x. (x.0, x.1.now)) result (wide_at bytes.now) }
{
    digits(WIDE_BYTES, bytes.len(), bytes)
}

/// A number from `least` to `most`. With any other this rule fails at the number.
#[tactic(auto, unfolding(run_save_format::specs::Values::number_in))]
pub fn number_in(rule: u8, least: u64, most: u64, bytes: &[u8]) -> Result<(u64, &[u8]), ReadFault>
    ensures reads { Gives (λ x. (x.0, x.1.now)) result (number_in rule least most bytes.now) }
    ensures least { IfOk result (λ x. least ≤ x.0) }
    ensures most { IfOk result (λ x. x.0 ≤ most) }
{
    let (number, rest) = wide(bytes)?;
    if least <= number && number <= most {
        Ok((number, rest))
    } else {
        Err(bad(rule, bytes.len()))
    }
}

/// A number of at most 32 bits.
pub fn small(bytes: &[u8]) -> Result<(u32, &[u8]), ReadFault>
    ensures { Gives (λ x. (x.0, x.1.now)) result (small_at bytes.now) }
{
    let (number, rest) = number_in(4, 0, MOST_SMALL, bytes)?;
    Ok((number as u32, rest))
}

/// None, or a number of at most 32 bits.
#[tactic(auto, unfolding(run_save_format::specs::Values::optional_at), using(crate::proofs::Steps::some_of))]
pub fn optional(bytes: &[u8]) -> Result<(Option<u32>, &[u8]), ReadFault>
    ensures { Gives (λ x. (x.0, x.1.now)) result (optional_at bytes.now) }
{
    let (number, rest) = number_in(4, 0, MOST_SMALL + 1, bytes)?;
    if number == 0 {
        Ok((None, rest))
    } else {
        Ok((Some((number - 1) as u32), rest))
    }
}
