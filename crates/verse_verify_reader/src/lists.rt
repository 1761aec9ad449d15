//! Lists are read: how many, and then each.

ghost use Rattle.std.specs.Prelude.{◌≡◌, Ok, map};
ghost use Rattle.verse_image.specs.Reading.{Gives};
ghost use Rattle.verse_verify_faults.specs.Reading.{list_at, mark_at, op_index, sort_at};
ghost use Rattle.verse_verify_notes.specs.View.{mark_of, sorts_of};

use crate::choices::index;
use crate::sorts::sorts;
use std::alloc::Global;
use verse_code::codes::Code;
use verse_image::faults::ReadFault;
use verse_image::numbers::number;
use verse_verify_notes::notes::Mark;
use verse_verify_notes::sorts::Sort;

/// A list of sorts.
pub fn sort_list<'a>(
    alloc: Global,
    code: &Code,
    bytes: &'a [u8],
) -> Result<(Vec<Sort>, &'a [u8]), ReadFault>
    ensures { Gives (λ x. (sorts_of x.0.items, x.1.now)) result
        (list_at (sort_at code.now) bytes.now) }
{
    let (count, rest) = number(bytes)?;
    sorts(alloc, code, count, rest)
}

/// A list of indices of operations.
pub fn indices<'a>(
    alloc: Global,
    code: &Code,
    bytes: &'a [u8],
) -> Result<(Vec<u32>, &'a [u8]), ReadFault>
    ensures { Gives (λ x. (x.0.items, x.1.now)) result
        (list_at (op_index code.now) bytes.now) }
{
    let (count, mut rest) = number(bytes)?;
    let mut indices = Vec::new(alloc);
    'indices: for _i in 0..count {
        let (index, after) = index(code, rest)?;
        indices.push(index)?;
        rest = after;
    }
    Ok((indices, rest))
}

/// An open Try.
pub fn mark<'a>(code: &Code, bytes: &'a [u8]) -> Result<(Mark, &'a [u8]), ReadFault>
    ensures { Gives (λ x. (mark_of x.0, x.1.now)) result (mark_at code.now bytes.now) }
{
    let (index, rest) = index(code, bytes)?;
    let (height, rest) = number(rest)?;
    Ok((Mark { index, height }, rest))
}

/// A list of open Trys.
pub fn marks<'a>(
    alloc: Global,
    code: &Code,
    bytes: &'a [u8],
) -> Result<(Vec<Mark>, &'a [u8]), ReadFault>
    ensures { Gives (λ x. (map mark_of x.0.items, x.1.now)) result
        (list_at (mark_at code.now) bytes.now) }
{
    let (count, mut rest) = number(bytes)?;
    let mut marks = Vec::new(alloc);
    'marks: for _i in 0..count {
        let (mark, after) = mark(code, rest)?;
        marks.push(mark)?;
        rest = after;
    }
    Ok((marks, rest))
}
