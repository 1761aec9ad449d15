//! Tables are read.

ghost use Rattle.std.specs.Prelude.{◌≡◌, Ok, slice_get};
ghost use Rattle.verse_image.specs.Reading.{Gives, number_at, within_at, many_at, table_at};
ghost use Rattle.verse_image.specs.Reading.{text_at, place_at, function_at, class_at, main_at};
ghost use Rattle.verse_image.specs.Reading.{may_begin, tables_at};

use crate::faults::ReadFault;
use crate::fields::{function, place, text};
use crate::numbers::{bad, number, within};
use std::alloc::Global;
use verse_base::places::Place;
use verse_code::codes::{Class, Func};
use verse_code::tables::Table;

/// The texts.
pub fn texts(alloc: Global, bytes: &[u8]) -> Result<(Table<Table<u8>>, &[u8]), ReadFault>
    ensures { Gives (λ x. (x.0, x.1.now)) result (table_at text_at bytes.now) }
{
    let (count, mut rest) = number(bytes)?;
    let mut entries = Table::new(alloc);
    'entries: for _i in 0..count {
        let (entry, after) = text(alloc, rest)?;
        entries.push(entry)?;
        rest = after;
    }
    Ok((entries, rest))
}

/// The places.
pub fn places(alloc: Global, files: u32, bytes: &[u8]) -> Result<(Table<Place>, &[u8]), ReadFault>
    ensures { Gives (λ x. (x.0, x.1.now)) result (table_at (place_at files) bytes.now) }
{
    let (count, mut rest) = number(bytes)?;
    let mut entries = Table::new(alloc);
    'entries: for _i in 0..count {
        let (entry, after) = place(files, rest)?;
        entries.push(entry)?;
        rest = after;
    }
    Ok((entries, rest))
}

/// The functions.
pub fn functions(alloc: Global, ops: u32, bytes: &[u8]) -> Result<(Table<Func>, &[u8]), ReadFault>
    ensures { Gives (λ x. (x.0, x.1.now)) result (table_at (function_at ops) bytes.now) }
{
    let (count, mut rest) = number(bytes)?;
    let mut entries = Table::new(alloc);
    'entries: for _i in 0..count {
        let (entry, after) = function(ops, rest)?;
        entries.push(entry)?;
        rest = after;
    }
    Ok((entries, rest))
}

fn methods(alloc: Global, functions: u64, bytes: &[u8]) -> Result<(Table<u32>, &[u8]), ReadFault>
    ensures { Gives (λ x. (x.0, x.1.now)) result (table_at (within_at 0 functions) bytes.now) }
{
    let (count, mut rest) = number(bytes)?;
    let mut entries = Table::new(alloc);
    'entries: for _i in 0..count {
        let (entry, after) = within(0, functions, rest)?;
        entries.push(entry)?;
        rest = after;
    }
    Ok((entries, rest))
}

#[tactic(auto, unfolding(crate::specs::Reading::class_at))]
fn class(alloc: Global, functions: u64, bytes: &[u8]) -> Result<(Class, &[u8]), ReadFault>
    ensures { Gives (λ x. (x.0, x.1.now)) result (class_at functions bytes.now) }
{
    let (slots, rest) = number(bytes)?;
    let (methods, rest) = methods(alloc, functions, rest)?;
    Ok((Class { slots, methods }, rest))
}

/// The classes.
pub fn classes(
    alloc: Global,
    functions: u64,
    bytes: &[u8],
) -> Result<(Table<Class>, &[u8]), ReadFault>
    ensures { Gives (λ x. (x.0, x.1.now)) result (table_at (class_at functions) bytes.now) }
{
    let (count, mut rest) = number(bytes)?;
    let mut entries = Table::new(alloc);
    'entries: for _i in 0..count {
        let (entry, after) = class(alloc, functions, rest)?;
        entries.push(entry)?;
        rest = after;
    }
    Ok((entries, rest))
}

fn may_begin(functions: &[Func], number: u32) -> bool
    ensures { result ≡ may_begin (slice_get functions.now number) }
{
    match functions.get(number as usize) {
        Some(function) => function.params <= 1,
        None => false,
    }
}

/// The number of the function that a run begins with.
#[tactic(auto, unfolding(crate::specs::Reading::main_at))]
pub fn main_number<'a>(
    functions: &Table<Func>,
    bytes: &'a [u8],
) -> Result<(u32, &'a [u8]), ReadFault>
    ensures { Gives (λ x. (x.0, x.1.now)) result (main_at functions.now bytes.now) }
{
    let (number, rest) = number(bytes)?;
    if may_begin(functions.as_slice(), number) {
        Ok((number, rest))
    } else {
        Err(bad(5, bytes.len()))
    }
}

/// The tables of a code, and the number of the function that a run begins with.
#[derive(Drop)]
pub struct Tables {
    pub texts: Table<Table<u8>>,
    pub places: Table<Place>,
    pub functions: Table<Func>,
    pub classes: Table<Class>,
    pub main: u32,
}

/// All tables of a code of so many files and operations.
#[tactic(auto, unfolding(crate::specs::Reading::tables_at))]
pub fn all_tables(
    alloc: Global,
    files: u32,
    ops: u32,
    bytes: &[u8],
) -> Result<(Tables, &[u8]), ReadFault>
    ensures { Gives (λ x. (x.0, x.1.now)) result (tables_at files ops bytes.now) }
{
    let (texts, rest) = texts(alloc, bytes)?;
    let (places, rest) = places(alloc, files, rest)?;
    let (functions, rest) = functions(alloc, ops, rest)?;
    let (classes, rest) = classes(alloc, functions.len() as u64, rest)?;
    let (main, rest) = main_number(&functions, rest)?;
    let tables = Tables {
        texts,
        places,
        functions,
        classes,
        main,
    };
    Ok((tables, rest))
}
