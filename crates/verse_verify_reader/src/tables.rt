//! What notes say of classes and functions is read.

ghost use Rattle.std.specs.Prelude.{◌≡◌, Ok, length, map, suc};
ghost use Rattle.verse_code.specs.declared.codes.Code.{Code};
ghost use Rattle.verse_image.specs.Reading.{Gives};
ghost use Rattle.verse_verify_faults.specs.Reading.{below, parent_from, class_at, func_at, each_at};
ghost use Rattle.verse_verify_notes.specs.View.{class_of, classes_of, func_of};

use crate::choices::CHOICES_END;
use crate::sorts::{sort, sorts};
use std::alloc::Global;
use verse_code::codes::{Class, Code, Func};
use verse_image::faults::ReadFault;
use verse_image::numbers::{bad, number, within};
use verse_verify_notes::notes::{ClassNote, FuncNote};

// No parent by 0, and one by its number and 1 more.
#[tactic(auto, using(crate::proofs::Steps::a_parent, crate::proofs::Steps::no_parent))]
fn parent_of(number: u32) -> Option<u32>
    ensures { (c : Code) → result ≡ parent_from c number }
{
    if number == 0 { None } else { Some(number - 1) }
}

// The number of a class and 1 more, or 0.
#[tactic(auto, using(crate::proofs::Steps::up_to, crate::proofs::Steps::past_end, crate::proofs::Steps::no_number))]
fn parent_number<'a>(code: &Code, bytes: &'a [u8]) -> Result<(u32, &'a [u8]), ReadFault>
    ensures { Gives (λ x. (x.0, x.1.now)) result
        (below (suc (length code.now.classes)) bytes.now) }
{
    let (number, rest) = number(bytes)?;
    if number as usize <= code.classes.len() {
        Ok((number, rest))
    } else {
        Err(bad(5, bytes.len()))
    }
}

/// What is said of a class.
pub fn class<'a>(
    alloc: Global,
    code: &Code,
    class: &Class,
    bytes: &'a [u8],
) -> Result<(ClassNote, &'a [u8]), ReadFault>
    ensures { Gives (λ x. (class_of x.0, x.1.now)) result
        (class_at code.now class.now bytes.now) }
{
    let (number, rest) = parent_number(code, bytes)?;
    let (slots, rest) = sorts(alloc, code, class.slots, rest)?;
    let parent = parent_of(number);
    Ok((ClassNote { parent, slots }, rest))
}

fn class_notes<'a>(
    alloc: Global,
    code: &Code,
    all: &[Class],
    bytes: &'a [u8],
) -> Result<(Vec<ClassNote>, &'a [u8]), ReadFault>
    ensures { Gives (λ x. (classes_of x.0.items, x.1.now)) result
        (each_at code.now (class_at code.now) all.now bytes.now) }
{
    let mut notes = Vec::new(alloc);
    let mut rest = bytes;
    'classes: for known in all {
        let (note, after) = class(alloc, code, known, rest)?;
        notes.push(note)?;
        rest = after;
    }
    Ok((notes, rest))
}

/// What is said of all classes.
pub fn classes<'a>(
    alloc: Global,
    code: &Code,
    bytes: &'a [u8],
) -> Result<(Vec<ClassNote>, &'a [u8]), ReadFault>
    ensures { Gives (λ x. (classes_of x.0.items, x.1.now)) result
        (each_at code.now (class_at code.now) code.now.classes bytes.now) }
{
    class_notes(alloc, code, code.classes.as_slice(), bytes)
}

/// What is said of a function.
pub fn function<'a>(
    alloc: Global,
    code: &Code,
    function: &Func,
    bytes: &'a [u8],
) -> Result<(FuncNote, &'a [u8]), ReadFault>
    ensures { Gives (λ x. (func_of x.0, x.1.now)) result
        (func_at code.now function.now bytes.now) }
{
    let (params, rest) = sorts(alloc, code, function.params, bytes)?;
    let (result, rest) = sort(alloc, code, rest)?;
    let (fails, rest) = within(0, CHOICES_END, rest)?;
    let (waits, rest) = within(0, CHOICES_END, rest)?;
    Ok((
        FuncNote {
            params,
            result,
            may_fail: fails > 0,
            may_wait: waits > 0,
        },
        rest,
    ))
}

fn function_notes<'a>(
    alloc: Global,
    code: &Code,
    all: &[Func],
    bytes: &'a [u8],
) -> Result<(Vec<FuncNote>, &'a [u8]), ReadFault>
    ensures { Gives (λ x. (map func_of x.0.items, x.1.now)) result
        (each_at code.now (func_at code.now) all.now bytes.now) }
{
    let mut notes = Vec::new(alloc);
    let mut rest = bytes;
    'functions: for known in all {
        let (note, after) = function(alloc, code, known, rest)?;
        notes.push(note)?;
        rest = after;
    }
    Ok((notes, rest))
}

/// What is said of all functions.
pub fn functions<'a>(
    alloc: Global,
    code: &Code,
    bytes: &'a [u8],
) -> Result<(Vec<FuncNote>, &'a [u8]), ReadFault>
    ensures { Gives (λ x. (map func_of x.0.items, x.1.now)) result
        (each_at code.now (func_at code.now) code.now.functions bytes.now) }
{
    function_notes(alloc, code, code.functions.as_slice(), bytes)
}
