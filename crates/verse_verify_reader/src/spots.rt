//! States at operations are read.

ghost use Rattle.std.specs.Prelude.{◌≡◌, Ok, Some, map, option_map, slice_get};
ghost use Rattle.verse_code.specs.declared.operations.Op.{Op};
ghost use Rattle.verse_image.specs.Reading.{Gives, many_at};
ghost use Rattle.verse_verify_faults.specs.Reading.{defers_in, each_at, locals_of, option_at};
ghost use Rattle.verse_verify_faults.specs.Reading.{sort_at, spot_from, spots_at, with_block};
ghost use Rattle.verse_verify_notes.specs.View.{mark_of, sort_of, sorts_of, spot_of};
ghost use Rattle.verse_verify_reader.specs.Wholes.{bare_spot};

use crate::choices::{CHOICES_END, maybe_index, maybe_sort};
use crate::lists::{indices, marks, sort_list};
use crate::sorts::sorts;
use std::alloc::Global;
use std::rc::Rc;
use verse_code::codes::Code;
use verse_code::operations::Op;
use verse_image::faults::ReadFault;
use verse_image::numbers::{number, within};
use verse_verify_notes::notes::{Mark, Spot};
use verse_verify_notes::sorts::Sort;

/// The greatest code of an operation that a code without deferred blocks has.
const LAST_PLAIN_OPERATION: u8 = 63;

/// Whether one of the operations of a code defers a block, runs or ends one.
pub fn does_defer(code: &Code) -> bool
    ensures { result ≡ defers_in code.now code.now.ops }
{
    'ops: for op in code.ops.as_slice() {
        if op.code() > LAST_PLAIN_OPERATION {
            return true;
        }
    }
    false
}

fn locals_of(code: &Code, func: u32) -> u32
    ensures { result ≡ locals_of code.now (slice_get code.now.functions func) }
{
    match code.functions.get(func as usize) {
        None => 0,
        Some(function) => function.locals,
    }
}

// A sort for each local of a function.
fn locals<'a>(
    alloc: Global,
    code: &Code,
    func: u32,
    bytes: &'a [u8],
) -> Result<(Vec<Sort>, &'a [u8]), ReadFault>
    ensures { Gives (λ x. (sorts_of x.0.items, x.1.now)) result
        (many_at (sort_at code.now) (locals_of code.now (slice_get code.now.functions func))
        bytes.now) }
{
    sorts(alloc, code, locals_of(code, func), bytes)
}

// A state outside of deferred blocks.
fn bare_spot(
    alloc: Global,
    func: u32,
    arm: Option<Sort>,
    locals: Rc<Vec<Sort>>,
    stack: Vec<Sort>,
    tries: Vec<Mark>,
) -> Spot
    ensures { spot_of result ≡ bare_spot func (option_map sort_of arm) (sorts_of locals.value.items)
        (sorts_of stack.items) (map mark_of tries.items) }
{
    Spot {
        func,
        arm,
        locals,
        stack,
        tries,
        block: None,
        outer: Vec::new(alloc),
        under: 0,
        defers: Vec::new(alloc),
    }
}

// What a code that defers blocks tells of a state besides.
fn with_block<'a>(
    alloc: Global,
    code: &Code,
    is_told: bool,
    spot: Spot,
    bytes: &'a [u8],
) -> Result<(Spot, &'a [u8]), ReadFault>
    ensures { Gives (λ x. (spot_of x.0, x.1.now)) result
        (with_block code.now is_told (spot_of spot) bytes.now) }
{
    if !is_told {
        return Ok((spot, bytes));
    }
    let (block, rest) = maybe_index(code, bytes)?;
    let (outer, rest) = indices(alloc, code, rest)?;
    let (under, rest) = number(rest)?;
    let (defers, rest) = indices(alloc, code, rest)?;
    Ok((
        Spot {
            func: spot.func,
            arm: spot.arm,
            locals: spot.locals,
            stack: spot.stack,
            tries: spot.tries,
            block,
            outer,
            under,
            defers,
        },
        rest,
    ))
}

/// A state. A code that defers blocks tells more of it.
pub fn spot<'a>(
    alloc: Global,
    code: &Code,
    is_told: bool,
    bytes: &'a [u8],
) -> Result<(Spot, &'a [u8]), ReadFault>
    ensures { Gives (λ x. (spot_of x.0, x.1.now)) result
        (spot_from code.now is_told bytes.now) }
{
    let (func, rest) = within(0, code.functions.len() as u64, bytes)?;
    let (arm, rest) = maybe_sort(alloc, code, rest)?;
    let (locals, rest) = locals(alloc, code, func, rest)?;
    let (stack, rest) = sort_list(alloc, code, rest)?;
    let (tries, rest) = marks(alloc, code, rest)?;
    let spot = bare_spot(alloc, func, arm, Rc::new(alloc, locals)?, stack, tries);
    with_block(alloc, code, is_told, spot, rest)
}

/// A state, or none.
pub fn maybe_spot<'a>(
    alloc: Global,
    code: &Code,
    is_told: bool,
    bytes: &'a [u8],
) -> Result<(Option<Spot>, &'a [u8]), ReadFault>
    ensures { Gives (λ x. (option_map spot_of x.0, x.1.now)) result
        (option_at (spot_from code.now is_told) bytes.now) }
{
    let (choice, rest) = within(0, CHOICES_END, bytes)?;
    if choice > 0 {
        let (spot, rest) = spot(alloc, code, is_told, rest)?;
        return Ok((Some(spot), rest));
    }
    Ok((None, rest))
}

fn spot_notes<'a>(
    alloc: Global,
    code: &Code,
    is_told: bool,
    ops: &[Op],
    bytes: &'a [u8],
) -> Result<(Vec<Option<Spot>>, &'a [u8]), ReadFault>
    ensures { Gives (λ x. (map (option_map spot_of) x.0.items, x.1.now)) result
        (each_at code.now (λ (op : Op). option_at (spot_from code.now is_told)) ops.now
        bytes.now) }
{
    let mut spots = Vec::new(alloc);
    let mut rest = bytes;
    'spots: for _op in ops {
        let (spot, after) = maybe_spot(alloc, code, is_told, rest)?;
        spots.push(spot)?;
        rest = after;
    }
    Ok((spots, rest))
}

/// The states at all operations.
pub fn spots<'a>(
    alloc: Global,
    code: &Code,
    bytes: &'a [u8],
) -> Result<(Vec<Option<Spot>>, &'a [u8]), ReadFault>
    ensures { Gives (λ x. (map (option_map spot_of) x.0.items, x.1.now)) result
        (spots_at code.now code.now.ops bytes.now) }
{
    spot_notes(alloc, code, does_defer(code), code.ops.as_slice(), bytes)
}
