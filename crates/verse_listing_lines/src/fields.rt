//! Fields of lines.

ghost use Rattle.std.specs.Prelude.{◌≡◌, ◌≤◌, slice_get};
ghost use Rattle.verse_listing_lines.specs.Lines.{field, only_field, fields, may_begin};
ghost use Rattle.verse_listing_lines.specs.Lines.{place_of, function_of, class_of, main_of};
ghost use Rattle.verse_listing_lines.specs.Answers.{Gives};

use crate::faults::{FIELD, FORM, LineFault};
use std::alloc::Global;
use verse_base::places::Place;
use verse_code::codes::{Class, Func};
use verse_code::tables::Table;

/// What a number is below.
pub const NUMBER_END: u64 = 4_294_967_296;
/// What the number of files is below.
pub const FILES_END: u64 = 17;
/// What the number of operations is below, and that of the locals of a function.
pub const OPERATIONS_END: u64 = 16_777_217;
/// What the length of a text is below.
pub const TEXT_END: u64 = 4_000_000;

/// A number from `least` on and below `end`.
pub fn field(least: u32, end: u64, number: Option<i64>) -> Result<u32, LineFault>
    requires { end ≤ 4294967296 }
    ensures { Gives (λ x. x) result (field least end number) }
{
    let Some(number) = number else {
        return Err(LineFault::Broken(FIELD));
    };
    if least as i64 <= number && number < end as i64 {
        Ok(number as u32)
    } else {
        Err(LineFault::Broken(FIELD))
    }
}

/// The one number of a line.
pub fn only_field(least: u32, end: u64, numbers: &[Option<i64>]) -> Result<u32, LineFault>
    requires { end ≤ 4294967296 }
    ensures { Gives (λ x. x) result (only_field least end numbers.now) }
{
    match numbers {
        [number] => field(least, end, *number),
        _ => Err(LineFault::Broken(FORM)),
    }
}

/// Numbers that are all below `end`.
fn fields(alloc: Global, end: u64, numbers: &[Option<i64>]) -> Result<Table<u32>, LineFault>
    requires { end ≤ 4294967296 }
    ensures { Gives (λ x. x) result (fields end numbers.now) }
{
    let mut all = Table::new(alloc);
    'numbers: for number in numbers {
        all.push(field(0, end, *number)?)?;
    }
    Ok(all)
}

/// The place that the numbers of a line are.
#[tactic(auto, unfolding(crate::specs::Lines::place_of))]
pub fn place_of(files: u32, numbers: &[Option<i64>]) -> Result<Place, LineFault>
    ensures { Gives (λ x. x) result (place_of files numbers.now) }
{
    let [file, line, col] = numbers else {
        return Err(LineFault::Broken(FORM));
    };
    let file = field(0, files as u64, *file)?;
    let line = field(1, NUMBER_END, *line)?;
    let col = field(1, NUMBER_END, *col)?;
    Ok(Place { file, line, col })
}

/// The function that the numbers of a line are.
#[tactic(auto, unfolding(crate::specs::Lines::function_of))]
pub fn function_of(ops: u32, numbers: &[Option<i64>]) -> Result<Func, LineFault>
    ensures { Gives (λ x. x) result (function_of ops numbers.now) }
{
    let [params, locals, entry, suspends] = numbers else {
        return Err(LineFault::Broken(FORM));
    };
    let params = field(0, NUMBER_END, *params)?;
    let locals = field(params, OPERATIONS_END, *locals)?;
    let entry = field(0, ops as u64, *entry)?;
    let suspends = field(0, 2, *suspends)?;
    Ok(Func {
        params,
        locals,
        entry,
        suspends: suspends == 1,
    })
}

/// The class that the numbers of a line are, where there are so many functions.
#[tactic(auto, unfolding(crate::specs::Lines::class_of))]
pub fn class_of(
    alloc: Global,
    functions: usize,
    numbers: &[Option<i64>],
) -> Result<Class, LineFault>
    requires { functions ≤ 4294967295 }
    ensures { Gives (λ x. x) result (class_of functions numbers.now) }
{
    let [slots, methods @ ..] = numbers else {
        return Err(LineFault::Broken(FORM));
    };
    let slots = field(0, NUMBER_END, *slots)?;
    let methods = fields(alloc, functions as u64, methods)?;
    if (methods.len() as u64) < NUMBER_END {
        Ok(Class { slots, methods })
    } else {
        Err(LineFault::Broken(FIELD))
    }
}

fn may_begin(functions: &[Func], number: u32) -> bool
    ensures { result ≡ may_begin (slice_get functions.now number) }
{
    match functions.get(number as usize) {
        Some(function) => function.params <= 1,
        None => false,
    }
}

/// The number of the function that a run begins with.
#[tactic(auto, unfolding(crate::specs::Lines::main_of))]
pub fn main_of(functions: &[Func], numbers: &[Option<i64>]) -> Result<u32, LineFault>
    ensures { Gives (λ x. x) result (main_of functions.now numbers.now) }
{
    let main = only_field(0, NUMBER_END, numbers)?;
    if may_begin(functions, main) {
        Ok(main)
    } else {
        Err(LineFault::Broken(FIELD))
    }
}
