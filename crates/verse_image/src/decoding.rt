//! Bytes are read as a code.

ghost use Rattle.std.specs.Prelude.{◌≡◌, ◌≤◌, ℕ, IfOk, Ok, length};
ghost use Rattle.verse_code.specs.declared.codes.Code.{Code};
ghost use Rattle.verse_image.specs.Faults.{NoneBefore};
ghost use Rattle.verse_image.specs.Format.{mark, Image};
ghost use Rattle.verse_image.specs.Reading.{Gives, letter_at, mark_at, version_at, top_of, head_at};
ghost use Rattle.verse_image.specs.Reading.{sizes_with, code_with, ended, image_at, Tells};

use crate::faults::{ImageFault, ReadFault};
use crate::numbers::{FILES_END, OPERATIONS_END, bad, byte, within};
use crate::operations::operations;
use crate::tables::{Tables, all_tables};
use std::alloc::Global;
use verse_code::codes::Code;
use verse_code::operations::Op;
use verse_code::tables::Table;
use verse_code::validity::Sizes;

#[tactic(auto, unfolding(crate::specs::Reading::letter_at))]
fn letter(letter: u8, left: usize, bytes: &[u8]) -> Result<&[u8], ReadFault>
    ensures { Gives (λ x. x.now) result (letter_at letter left bytes.now) }
{
    let (first, rest) = byte(bytes)?;
    if first == letter {
        Ok(rest)
    } else {
        Err(bad(1, left))
    }
}

fn after_mark(bytes: &[u8]) -> Result<&[u8], ReadFault>
    ensures { Gives (λ x. x.now) result (mark_at mark (length bytes.now) bytes.now) }
{
    let left = bytes.len();
    let rest = letter(b'V', left, bytes)?;
    let rest = letter(b'S', left, rest)?;
    let rest = letter(b'I', left, rest)?;
    letter(b'M', left, rest)
}

#[tactic(auto, unfolding(crate::specs::Reading::version_at))]
fn version(bytes: &[u8]) -> Result<(u8, &[u8]), ReadFault>
    ensures { Gives (λ x. (x.0, x.1.now)) result (version_at bytes.now) }
{
    let (version, rest) = byte(bytes)?;
    if version == 1 || version == 2 {
        Ok((version, rest))
    } else {
        Err(bad(2, bytes.len()))
    }
}

/// How the image begins.
#[derive(Clone, Copy)]
struct Head {
    version: u8,
    files: u32,
    ops: u32,
}

#[tactic(auto, unfolding(crate::specs::Reading::head_at))]
fn beginning(bytes: &[u8]) -> Result<(Head, &[u8]), ReadFault>
    ensures { Gives (λ x. ((x.0.version, x.0.files, x.0.ops), x.1.now)) result (head_at bytes.now) }
{
    let rest = after_mark(bytes)?;
    let (version, rest) = version(rest)?;
    let (files, rest) = within(1, FILES_END, rest)?;
    let (ops, rest) = within(1, OPERATIONS_END, rest)?;
    Ok((
        Head {
            version,
            files,
            ops,
        },
        rest,
    ))
}

#[tactic(auto, unfolding(crate::specs::Reading::image_at))]
fn image(alloc: Global, bytes: &[u8]) -> Result<Code, ReadFault>
    ensures { Gives (λ x. x) result (image_at bytes.now) }
{
    let (head, rest) = beginning(bytes)?;
    let (tables, rest) = all_tables(alloc, head.files, head.ops, rest)?;
    let sizes = sizes(head.ops, &tables);
    let top = top_of(head.version);
    let (ops, rest) = operations(alloc, &sizes, top, head.ops, rest)?;
    ended(code(head.files, tables, ops), rest)
}

fn sizes(ops: u32, tables: &Tables) -> Sizes
    ensures { result ≡ sizes_with ops tables.now }
{
    Sizes {
        ops: ops as usize,
        texts: tables.texts.len(),
        places: tables.places.len(),
        functions: tables.functions.len(),
        classes: tables.classes.len(),
    }
}

fn top_of(version: u8) -> u8
    ensures top { result ≡ top_of version }
    ensures within { result ≤ 66 }
{
    if version == 1 { 63 } else { 66 }
}

fn code(files: u32, tables: Tables, ops: Table<Op>) -> Code
    ensures { result ≡ code_with files tables ops }
{
    Code {
        files,
        texts: tables.texts,
        places: tables.places,
        functions: tables.functions,
        classes: tables.classes,
        main: tables.main,
        ops,
    }
}

fn ended(code: Code, rest: &[u8]) -> Result<Code, ReadFault>
    ensures { Gives (λ x. x) result (ended code rest.now) }
{
    if rest.is_empty() {
        Ok(code)
    } else {
        Err(bad(7, rest.len()))
    }
}

/// The code that the bytes spell. Bytes that are no image are refused with the first failing place
/// from the left.
pub fn decode(alloc: Global, bytes: &[u8]) -> Result<Code, ImageFault>
    // What is read is spelled so.
    ensures found { IfOk result (λ code. (version : ℕ) × Image version code bytes.now) }
    // What is spelled so is read, unless memory runs out.
    ensures only { (version : ℕ) (code : Code) → Image version code bytes.now →
        Tells bytes.now result (Ok code) }
    // Which fault it is.
    ensures exact { Tells bytes.now result (image_at bytes.now) }
    // What stands before it has no fault.
    ensures before { NoneBefore bytes.now result }
{
    match image(alloc, bytes) {
        Ok(code) => Ok(code),
        Err(ReadFault::Memory) => Err(ImageFault::Memory),
        Err(ReadFault::Bad(flaw)) => Err(ImageFault::Bad {
            rule: flaw.rule,
            at: bytes.len().saturating_sub(flaw.left),
        }),
    }
}
