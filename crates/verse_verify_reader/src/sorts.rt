//! Sorts are read.

ghost use Rattle.std.specs.Prelude.{◌≡◌, Ok, length, slice_get};
ghost use Rattle.verse_image.specs.Reading.{Gives, many_at, number_at};
ghost use Rattle.verse_sorts.specs.Sorts.{var, event, task, opt, list, map, tuple, obj};
ghost use Rattle.verse_sorts.specs.Sorts as s;
ghost use Rattle.verse_verify_kept.specs.Rules.{sorts};
ghost use Rattle.verse_verify_faults.specs.Reading.{after, answers, below, list_at};
ghost use Rattle.verse_verify_faults.specs.Reading.{plain_sorts, sort_with, sort_in, sort_at};
ghost use Rattle.verse_verify_notes.specs.View.{sort_of, sorts_of};

use std::alloc::Global;
use std::rc::Rc;
use verse_code::codes::Code;
use verse_image::faults::ReadFault;
use verse_image::numbers::{bad, number, within};
use verse_verify_notes::sorts::Sort;

/// The greatest number of levels of a sort.
pub const MOST_SORT_LEVELS: u8 = 40;
/// What the tag of a sort is below.
const TAGS_END: u64 = 18;

/// A sort of at most so many levels.
#[cycle(sort)]
pub fn sort_part<'a>(
    alloc: Global,
    code: &Code,
    levels: u8,
    bytes: &'a [u8],
) -> Result<(Sort, &'a [u8]), ReadFault>
    ensures { Gives (λ x. (sort_of x.0, x.1.now)) result (sort_in code.now levels bytes.now) }
{
    let (tag, rest) = within(0, TAGS_END, bytes)?;
    if levels == 0 {
        return Err(bad(1, bytes.len()));
    }
    sort_of_tag(alloc, code, levels - 1, tag, rest)
}

// The rest of a sort, behind its tag.
#[cycle(sort)]
fn sort_of_tag<'a>(
    alloc: Global,
    code: &Code,
    levels: u8,
    tag: u32,
    bytes: &'a [u8],
) -> Result<(Sort, &'a [u8]), ReadFault>
    ensures { Gives (λ x. (sort_of x.0, x.1.now)) result
        (sort_with code.now (slice_get (plain_sorts code.now) tag) tag (sort_in code.now levels)
        bytes.now) }
{
    match tag {
        0 => Ok((Sort::None, bytes)),
        1 => Ok((Sort::Any, bytes)),
        2 => Ok((Sort::Never, bytes)),
        3 => Ok((Sort::Unit, bytes)),
        4 => Ok((Sort::Nil, bytes)),
        5 => Ok((Sort::Int, bytes)),
        6 => Ok((Sort::Logic, bytes)),
        7 => Ok((Sort::Char, bytes)),
        8 => Ok((Sort::Span, bytes)),
        9 => enum_sort(bytes),
        10 => object_sort(code, bytes),
        11 => var_sort(alloc, code, levels, bytes),
        12 => event_sort(alloc, code, levels, bytes),
        13 => task_sort(alloc, code, levels, bytes),
        14 => option_sort(alloc, code, levels, bytes),
        15 => list_sort(alloc, code, levels, bytes),
        16 => map_sort(alloc, code, levels, bytes),
        _ => tuple_sort(alloc, code, levels, bytes),
    }
}

fn enum_sort(bytes: &[u8]) -> Result<(Sort, &[u8]), ReadFault>
    ensures { Gives (λ x. (sort_of x.0, x.1.now)) result
        (after (number_at bytes.now) (λ e. answers (s.enum e))) }
{
    let (of, rest) = number(bytes)?;
    Ok((Sort::Enum(of), rest))
}

fn object_sort<'a>(code: &Code, bytes: &'a [u8]) -> Result<(Sort, &'a [u8]), ReadFault>
    ensures { Gives (λ x. (sort_of x.0, x.1.now)) result
        (after (below (length code.now.classes) bytes.now) (λ k. answers (obj k))) }
{
    let (class, rest) = within(0, code.classes.len() as u64, bytes)?;
    Ok((Sort::Object(class), rest))
}

#[cycle(sort)]
fn shared<'a>(
    alloc: Global,
    code: &Code,
    levels: u8,
    bytes: &'a [u8],
) -> Result<(Rc<Sort>, &'a [u8]), ReadFault>
    ensures { Gives (λ x. (sort_of x.0.value, x.1.now)) result
        (sort_in code.now levels bytes.now) }
{
    let (part, rest) = sort_part(alloc, code, levels, bytes)?;
    Ok((Rc::new(alloc, part)?, rest))
}

#[cycle(sort)]
fn var_sort<'a>(
    alloc: Global,
    code: &Code,
    levels: u8,
    bytes: &'a [u8],
) -> Result<(Sort, &'a [u8]), ReadFault>
    ensures { Gives (λ x. (sort_of x.0, x.1.now)) result
        (after (sort_in code.now levels bytes.now) (λ a. answers (var a))) }
{
    let (part, rest) = shared(alloc, code, levels, bytes)?;
    Ok((Sort::Var(part), rest))
}

#[cycle(sort)]
fn event_sort<'a>(
    alloc: Global,
    code: &Code,
    levels: u8,
    bytes: &'a [u8],
) -> Result<(Sort, &'a [u8]), ReadFault>
    ensures { Gives (λ x. (sort_of x.0, x.1.now)) result
        (after (sort_in code.now levels bytes.now) (λ a. answers (event a))) }
{
    let (part, rest) = shared(alloc, code, levels, bytes)?;
    Ok((Sort::Event(part), rest))
}

#[cycle(sort)]
fn task_sort<'a>(
    alloc: Global,
    code: &Code,
    levels: u8,
    bytes: &'a [u8],
) -> Result<(Sort, &'a [u8]), ReadFault>
    ensures { Gives (λ x. (sort_of x.0, x.1.now)) result
        (after (sort_in code.now levels bytes.now) (λ a. answers (task a))) }
{
    let (part, rest) = shared(alloc, code, levels, bytes)?;
    Ok((Sort::Task(part), rest))
}

#[cycle(sort)]
fn option_sort<'a>(
    alloc: Global,
    code: &Code,
    levels: u8,
    bytes: &'a [u8],
) -> Result<(Sort, &'a [u8]), ReadFault>
    ensures { Gives (λ x. (sort_of x.0, x.1.now)) result
        (after (sort_in code.now levels bytes.now) (λ a. answers (opt a))) }
{
    let (part, rest) = shared(alloc, code, levels, bytes)?;
    Ok((Sort::Option(part), rest))
}

#[cycle(sort)]
fn list_sort<'a>(
    alloc: Global,
    code: &Code,
    levels: u8,
    bytes: &'a [u8],
) -> Result<(Sort, &'a [u8]), ReadFault>
    ensures { Gives (λ x. (sort_of x.0, x.1.now)) result
        (after (sort_in code.now levels bytes.now) (λ a. answers (list a))) }
{
    let (part, rest) = shared(alloc, code, levels, bytes)?;
    Ok((Sort::List(part), rest))
}

#[cycle(sort)]
fn map_sort<'a>(
    alloc: Global,
    code: &Code,
    levels: u8,
    bytes: &'a [u8],
) -> Result<(Sort, &'a [u8]), ReadFault>
    ensures { Gives (λ x. (sort_of x.0, x.1.now)) result
        (after (sort_in code.now levels bytes.now) (λ k rest.
        after (sort_in code.now levels rest) (λ a. answers (map k a)))) }
{
    let (key, rest) = shared(alloc, code, levels, bytes)?;
    let (value, rest) = shared(alloc, code, levels, rest)?;
    Ok((Sort::Map(key, value), rest))
}

#[cycle(sort)]
fn tuple_sort<'a>(
    alloc: Global,
    code: &Code,
    levels: u8,
    bytes: &'a [u8],
) -> Result<(Sort, &'a [u8]), ReadFault>
    ensures { Gives (λ x. (sort_of x.0, x.1.now)) result
        (after (list_at (sort_in code.now levels) bytes.now) (λ xs. answers (tuple (sorts xs)))) }
{
    let (count, rest) = number(bytes)?;
    let (parts, rest) = parts(alloc, code, levels, count, rest)?;
    Ok((Sort::Tuple(Rc::new(alloc, parts)?), rest))
}

// So many sorts of at most so many levels.
#[cycle(sort)]
fn parts<'a>(
    alloc: Global,
    code: &Code,
    levels: u8,
    count: u32,
    bytes: &'a [u8],
) -> Result<(Vec<Sort>, &'a [u8]), ReadFault>
    ensures { Gives (λ x. (sorts_of x.0.items, x.1.now)) result
        (many_at (sort_in code.now levels) count bytes.now) }
{
    let mut parts = Vec::new(alloc);
    let mut rest = bytes;
    'parts: for _i in 0..count {
        let (part, after) = sort_part(alloc, code, levels, rest)?;
        parts.push(part)?;
        rest = after;
    }
    Ok((parts, rest))
}

/// A sort.
pub fn sort<'a>(alloc: Global, code: &Code, bytes: &'a [u8]) -> Result<(Sort, &'a [u8]), ReadFault>
    ensures { Gives (λ x. (sort_of x.0, x.1.now)) result (sort_at code.now bytes.now) }
{
    sort_part(alloc, code, MOST_SORT_LEVELS, bytes)
}

/// So many sorts.
pub fn sorts<'a>(
    alloc: Global,
    code: &Code,
    count: u32,
    bytes: &'a [u8],
) -> Result<(Vec<Sort>, &'a [u8]), ReadFault>
    ensures { Gives (λ x. (sorts_of x.0.items, x.1.now)) result
        (many_at (sort_at code.now) count bytes.now) }
{
    parts(alloc, code, MOST_SORT_LEVELS, count, bytes)
}
