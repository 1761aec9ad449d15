//! Lines are written, each with its line feed.

ghost use Rattle.std.specs.Prelude.{◌≡◌, ◌++◌, OnOk, decimal, map};
ghost use Rattle.verse_code.specs.Operations.{operands_of};
ghost use Rattle.verse_listing_format.specs.Format.{AreBytes, AreSized, IsNumber, IsSizedPlace};
ghost use Rattle.verse_listing_format.specs.Format.{class_line, files_line, flag, function_line};
ghost use Rattle.verse_listing_format.specs.Format.{main_line, op_line, operands, ops_line};
ghost use Rattle.verse_listing_format.specs.Format.{place_line, text_line};
ghost use Rattle.verse_listing_writer.specs.Writing.{behind, line_text};

use crate::words::{push_hex, push_integer, push_number, push_word};
use verse_base::places::Place;
use verse_base::refusals::Memory;
use verse_base::texts::natural;
use verse_code::codes::{Class, Func};
use verse_code::operands::Operands;
use verse_code::operations::Op;
use verse_listing_format::names::name_at;

/// Writes the line that counts the files.
pub(crate) fn push_files(out: &mut Vec<u8>, files: u32) -> Result<(), Memory>
    ensures { OnOk result (out.new.items ≡ out.old.items ++ line_text (files_line files)) }
{
    out.extend_from_slice(b"files")?;
    push_number(out, files)?;
    out.push(b'\n')?;
    Ok(())
}

/// Writes the line that counts the operations.
pub(crate) fn push_ops(out: &mut Vec<u8>, ops: usize) -> Result<(), Memory>
    ensures { OnOk result (out.new.items ≡ out.old.items ++ line_text (ops_line ops)) }
{
    out.extend_from_slice(b"ops ")?;
    natural(ops as u64, out)?;
    out.push(b'\n')?;
    Ok(())
}

/// Writes the line of a text.
pub(crate) fn push_text(out: &mut Vec<u8>, bytes: &[u8]) -> Result<(), Memory>
    ensures written { OnOk result (out.new.items ≡ out.old.items ++ line_text (text_line bytes.now)) }
    ensures sized { AreBytes bytes.now }
{
    out.extend_from_slice(b"text")?;
    if !bytes.is_empty() {
        out.push(b' ')?;
        push_hex(out, bytes)?;
    }
    out.push(b'\n')?;
    Ok(())
}

/// Writes the line of a place.
pub(crate) fn push_place(out: &mut Vec<u8>, place: Place) -> Result<(), Memory>
    ensures written { OnOk result (out.new.items ≡ out.old.items ++ line_text (place_line place)) }
    ensures sized { IsSizedPlace place }
{
    out.extend_from_slice(b"place")?;
    push_number(out, place.file)?;
    push_number(out, place.line)?;
    push_number(out, place.col)?;
    out.push(b'\n')?;
    Ok(())
}

fn flag(value: bool) -> u32
    ensures { result ≡ flag value }
{
    if value { 1 } else { 0 }
}

/// Writes the line of a function.
pub(crate) fn push_function(out: &mut Vec<u8>, function: Func) -> Result<(), Memory>
    ensures { OnOk result (out.new.items ≡ out.old.items ++ line_text (function_line function)) }
{
    out.extend_from_slice(b"func")?;
    push_number(out, function.params)?;
    push_number(out, function.locals)?;
    push_number(out, function.entry)?;
    push_number(out, flag(function.suspends))?;
    out.push(b'\n')?;
    Ok(())
}

fn push_methods(out: &mut Vec<u8>, methods: &[u32]) -> Result<(), Memory>
    ensures { OnOk result (out.new.items ≡ out.old.items ++ behind (map decimal methods.now)) }
{
    'methods: for method in methods {
        push_number(out, *method)?;
    }
    Ok(())
}

/// Writes the line of a class.
pub(crate) fn push_class(out: &mut Vec<u8>, class: &Class) -> Result<(), Memory>
    ensures written { OnOk result (out.new.items ≡ out.old.items ++ line_text (class_line class.now)) }
    ensures sized { OnOk result (IsNumber class.now.slots) }
{
    out.extend_from_slice(b"class")?;
    push_number(out, class.slots)?;
    push_methods(out, class.methods.as_slice())?;
    out.push(b'\n')?;
    Ok(())
}

/// Writes the line that names the function a run begins with.
pub(crate) fn push_main(out: &mut Vec<u8>, main: u32) -> Result<(), Memory>
    ensures { OnOk result (out.new.items ≡ out.old.items ++ line_text (main_line main)) }
{
    out.extend_from_slice(b"main")?;
    push_number(out, main)?;
    out.push(b'\n')?;
    Ok(())
}

fn push_operands(out: &mut Vec<u8>, values: Operands) -> Result<(), Memory>
    ensures written { OnOk result (out.new.items ≡ out.old.items ++ behind (operands values)) }
    ensures sized { OnOk result (AreSized values) }
{
    match values {
        Operands::Bare => {}
        Operands::Integer(n) => push_integer(out, n)?,
        Operands::One(a) => push_number(out, a.1)?,
        Operands::Two(a, b) => {
            push_number(out, a.1)?;
            push_number(out, b.1)?;
        }
        Operands::Three(a, b, c) => {
            push_number(out, a.1)?;
            push_number(out, b.1)?;
            push_number(out, c.1)?;
        }
        Operands::Four(a, b, c, d) => {
            push_number(out, a.1)?;
            push_number(out, b.1)?;
            push_number(out, c.1)?;
            push_number(out, d.1)?;
        }
    }
    Ok(())
}

/// Writes the line of the operation of this index.
pub(crate) fn push_operation(out: &mut Vec<u8>, at: usize, op: Op) -> Result<(), Memory>
    ensures written { OnOk result (out.new.items ≡ out.old.items ++ line_text (op_line at op)) }
    ensures sized { OnOk result (AreSized (operands_of op)) }
{
    natural(at as u64, out)?;
    push_word(out, name_at(op.code()).as_bytes())?;
    push_operands(out, op.operands())?;
    out.push(b'\n')?;
    Ok(())
}
