//! A listing is read as a code.

ghost use Rattle.std.specs.Prelude.{◌≡◌, ℕ, ◌<◌, Ok, IfOk, [], length};
ghost use Rattle.verse_code.specs.declared.codes.Code.{Code};
ghost use Rattle.verse_listing_format.specs.Format.{Listing};
ghost use Rattle.verse_listing_lines.specs.declared.tables.Tables.{Tables};
ghost use Rattle.verse_listing_lines.specs.Lines.{files_of, ops_of, words, no_tables, sizes_with};
ghost use Rattle.verse_listing_lines.specs.Answers.{Gives};
ghost use Rattle.verse_listing.specs.Reading.{first, second, among_tables, among_operations};
ghost use Rattle.verse_listing.specs.Reading.{code_with, listing_at, flaw};
ghost use Rattle.verse_listing.specs.Answers.{Leads, IsCounted, left_gives, IsCut};
ghost use Rattle.verse_listing.specs.Answers.{fault_at, Tells};
ghost use Rattle.verse_listing.specs.Laws.{NoneBefore};

use crate::faults::{Flaw, ListFault, ReadFault};
use std::alloc::Global;
use verse_code::codes::Code;
use verse_code::operations::Op;
use verse_code::tables::Table;
use verse_code::validity::Sizes;
use verse_listing_lines::faults::{FORM, LineFault};
use verse_listing_lines::fields::{FILES_END, OPERATIONS_END, only_field};
use verse_listing_lines::operations::op_of;
use verse_listing_lines::tables::Tables;
use verse_listing_lines::words::{cut, numbers_behind};

/// What is left of a listing: the bytes from a line on, and the line's number.
#[derive(Clone, Copy)]
pub struct Left<'a> {
    bytes: &'a [u8],
    line: u64,
}

impl<'a> Left<'a> {
    /// The line that stands here, and what is left behind it.
    fn cut(self) -> Result<(&'a [u8], Left<'a>), ReadFault>
        requires { IsCounted self }
        ensures cut { IsCut self.entry result }
        ensures counted { IfOk result (λ x. IsCounted x.1) }
        ensures shorter { IfOk result (λ x. length x.1.bytes.now < length self.entry.bytes.now) }
    {
        match cut(b'\n', self.bytes) {
            Some((line, bytes)) => Ok((
                line,
                Left {
                    bytes,
                    line: self.line + 1,
                },
            )),
            None => Err(self.broken(FORM)),
        }
    }

    fn broken(self, rule: u8) -> ReadFault
        ensures { result ≡ ReadFault.Bad (flaw rule self.entry.line) }
    {
        ReadFault::Bad(Flaw {
            rule,
            line: self.line,
        })
    }

    /// The fault of the line that stands here.
    fn fault(self, fault: LineFault) -> ReadFault
        ensures { result ≡ fault_at self.entry.line fault }
    {
        match fault {
            LineFault::Memory => ReadFault::Memory,
            LineFault::Broken(rule) => self.broken(rule),
        }
    }
}

#[tactic(auto, unfolding(verse_listing_lines::specs::Lines::files_of))]
fn files_of(alloc: Global, line: &[u8]) -> Result<u32, LineFault>
    ensures { Gives (λ x. x) result (files_of (words line.now)) }
{
    let numbers = numbers_behind(alloc, b"files", line)?;
    only_field(1, FILES_END, numbers.as_slice())
}

#[tactic(auto, unfolding(verse_listing_lines::specs::Lines::ops_of))]
fn ops_of(alloc: Global, line: &[u8]) -> Result<u32, LineFault>
    ensures { Gives (λ x. x) result (ops_of (words line.now)) }
{
    let numbers = numbers_behind(alloc, b"ops", line)?;
    only_field(1, OPERATIONS_END, numbers.as_slice())
}

/// The number of files, by the first line.
fn first_line(alloc: Global, left: Left<'_>) -> Result<(u32, Left<'_>), ReadFault>
    requires { IsCounted left }
    ensures leads { Leads (λ x. left_gives (second x.0) x.1) result (left_gives first left.entry) }
    ensures counted { IfOk result (λ x. IsCounted x.1) }
{
    let (line, behind) = left.cut()?;
    match files_of(alloc, line) {
        Ok(files) => Ok((files, behind)),
        Err(fault) => Err(left.fault(fault)),
    }
}

/// The number of operations, by the second line.
fn second_line(alloc: Global, files: u32, left: Left<'_>) -> Result<(u32, Left<'_>), ReadFault>
    requires { IsCounted left }
    ensures leads { Leads (λ x. left_gives (among_tables files x.0 no_tables) x.1) result
        (left_gives (second files) left.entry) }
    ensures counted { IfOk result (λ x. IsCounted x.1) }
{
    let (line, behind) = left.cut()?;
    match ops_of(alloc, line) {
        Ok(ops) => Ok((ops, behind)),
        Err(fault) => Err(left.fault(fault)),
    }
}

/// The tables, up to the line that tells the number of Main.
fn tables<'a>(
    alloc: Global,
    files: u32,
    ops: u32,
    left: Left<'a>,
) -> Result<(Tables, u32, Left<'a>), ReadFault>
    requires { IsCounted left }
    ensures leads { Leads (λ x. left_gives (among_operations files ops x.0 x.1 []) x.2) result
        (left_gives (among_tables files ops no_tables) left.entry) }
    ensures counted { IfOk result (λ x. IsCounted x.2) }
{
    let mut tables = Tables::new(alloc);
    let mut here = left;
    'lines: loop {
        let (line, behind) = here.cut()?;
        match tables.line(alloc, files, ops, line) {
            Ok(None) => here = behind,
            Ok(Some(main)) => return Ok((tables, main, behind)),
            Err(fault) => return Err(here.fault(fault)),
        }
    }
}

/// As many operations as there are.
fn operations<'a>(
    alloc: Global,
    sizes: &Sizes,
    count: u32,
    left: Left<'a>,
) -> Result<(Table<Op>, Left<'a>), ReadFault>
    requires { IsCounted left }
    ensures leads { (files main : ℕ) (t : Tables) → sizes_with count t ≡ sizes.now →
        Leads (λ x. left_gives (among_operations files count t main x.0) x.1) result
        (left_gives (among_operations files count t main []) left.entry) }
    ensures count { IfOk result (λ x. length x.0 ≡ count) }
{
    let mut ops = Table::new(alloc);
    let mut here = left;
    'lines: for at in 0..count {
        let (line, behind) = here.cut()?;
        match op_of(alloc, sizes, at, line) {
            Ok(op) => ops.push(op)?,
            Err(fault) => return Err(here.fault(fault)),
        }
        here = behind;
    }
    Ok((ops, here))
}

fn sizes(ops: u32, tables: &Tables) -> Sizes
    ensures { result ≡ sizes_with ops tables.now }
{
    Sizes {
        ops: ops as usize,
        texts: tables.texts.len(),
        places: tables.places.len(),
        functions: tables.functions.len(),
        classes: tables.classes.len(),
    }
}

fn code(files: u32, tables: Tables, main: u32, ops: Table<Op>) -> Code
    ensures { result ≡ code_with files tables main ops }
{
    Code {
        files,
        texts: tables.texts,
        places: tables.places,
        functions: tables.functions,
        classes: tables.classes,
        main,
        ops,
    }
}

fn listing(alloc: Global, bytes: &[u8]) -> Result<Code, ReadFault>
    ensures { Leads (λ x. Ok x) result (listing_at bytes.now) }
{
    let left = Left { bytes, line: 1 };
    let (files, left) = first_line(alloc, left)?;
    let (count, left) = second_line(alloc, files, left)?;
    let (tables, main, left) = tables(alloc, files, count, left)?;
    let sizes = sizes(count, &tables);
    let (ops, left) = operations(alloc, &sizes, count, left)?;
    if left.bytes.is_empty() {
        Ok(code(files, tables, main, ops))
    } else {
        Err(left.broken(FORM))
    }
}

/// The code whose listing the bytes are. Bytes that are no listing are refused with the first
/// failing line, counted from 1, and the first of L1, L4, L2 and L3 that it breaks.
pub fn assemble(alloc: Global, bytes: &[u8]) -> Result<Code, ListFault>
    // What is read is listed so.
    ensures found { IfOk result (λ code. Listing code bytes.now) }
    // What is listed so is read, unless memory runs out.
    ensures only { (code : Code) → Listing code bytes.now → Tells result (Ok code) }
    // Which fault it is.
    ensures exact { Tells result (listing_at bytes.now) }
    // The lines before it have none.
    ensures before { NoneBefore bytes.now result }
{
    match listing(alloc, bytes) {
        Ok(code) => Ok(code),
        Err(ReadFault::Memory) => Err(ListFault::Memory),
        Err(ReadFault::Bad(flaw)) => Err(ListFault::Bad {
            rule: flaw.rule,
            line: flaw.line,
        }),
    }
}
