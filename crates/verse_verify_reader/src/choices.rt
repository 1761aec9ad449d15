//! What is there or not, and numbers of operations.

ghost use Rattle.std.specs.Prelude.{◌≡◌, Ok, option_map};
ghost use Rattle.verse_image.specs.Reading.{Gives};
ghost use Rattle.verse_verify_faults.specs.Reading.{option_at, op_index, sort_at};
ghost use Rattle.verse_verify_notes.specs.View.{sort_of};

use crate::sorts::sort;
use std::alloc::Global;
use verse_code::codes::Code;
use verse_image::faults::ReadFault;
use verse_image::numbers::within;
use verse_verify_notes::sorts::Sort;

/// What the number is below by which a thing is there, 1, or not, 0.
pub const CHOICES_END: u64 = 2;

/// The index of an operation.
pub fn index<'a>(code: &Code, bytes: &'a [u8]) -> Result<(u32, &'a [u8]), ReadFault>
    ensures { Gives (λ x. (x.0, x.1.now)) result (op_index code.now bytes.now) }
{
    within(0, code.ops.len() as u64, bytes)
}

/// The index of an operation, or none.
pub fn maybe_index<'a>(code: &Code, bytes: &'a [u8]) -> Result<(Option<u32>, &'a [u8]), ReadFault>
    ensures { Gives (λ x. (x.0, x.1.now)) result (option_at (op_index code.now) bytes.now) }
{
    let (choice, rest) = within(0, CHOICES_END, bytes)?;
    if choice > 0 {
        let (index, rest) = index(code, rest)?;
        return Ok((Some(index), rest));
    }
    Ok((None, rest))
}

/// A sort, or none.
pub fn maybe_sort<'a>(
    alloc: Global,
    code: &Code,
    bytes: &'a [u8],
) -> Result<(Option<Sort>, &'a [u8]), ReadFault>
    ensures { Gives (λ x. (option_map sort_of x.0, x.1.now)) result
        (option_at (sort_at code.now) bytes.now) }
{
    let (choice, rest) = within(0, CHOICES_END, bytes)?;
    if choice > 0 {
        let (sort, rest) = sort(alloc, code, rest)?;
        return Ok((Some(sort), rest));
    }
    Ok((None, rest))
}
