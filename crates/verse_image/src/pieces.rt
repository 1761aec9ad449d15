//! Parts of a code are written.

#![tactic(auto, using(crate::proofs::WritingLemmas::writes_then))]

ghost use Rattle.std.specs.Prelude.{◌≡◌, ◌≤◌, length, OnOk};
ghost use Rattle.verse_code.specs.Validity.{IsText, IsClass};
ghost use Rattle.verse_image.specs.Format.{number, text, place, flag, function, table, class};
ghost use Rattle.verse_image.specs.Format.{operand, operands, operation};
ghost use Rattle.verse_image.specs.Writing.{Writes};

use crate::digits::{push_byte, push_bytes, push_integer, push_number};
use verse_base::places::Place;
use verse_base::refusals::Memory;
use verse_code::codes::{Class, Func};
use verse_code::operands::{Operand, Operands};
use verse_code::operations::Op;

/// Writes a count.
pub fn push_count(out: &mut Vec<u8>, count: usize) -> Result<(), Memory>
    requires { count ≤ 4294967295 }
    ensures { OnOk result (Writes (number count) out.old.items out.new.items) }
{
    push_number(out, count as u32)?;
    Ok(())
}

/// Writes a text.
pub fn push_text(out: &mut Vec<u8>, bytes: &[u8]) -> Result<(), Memory>
    requires { IsText bytes.now }
    ensures { OnOk result (Writes (text bytes.now) out.old.items out.new.items) }
{
    push_count(out, bytes.len())?;
    push_bytes(out, bytes)?;
    Ok(())
}

/// Writes a place.
pub fn push_place(out: &mut Vec<u8>, value: Place) -> Result<(), Memory>
    ensures { OnOk result (Writes (place value) out.old.items out.new.items) }
{
    push_number(out, value.file)?;
    push_number(out, value.line)?;
    push_number(out, value.col)?;
    Ok(())
}

fn flag(value: bool) -> u32
    ensures { result ≡ flag value }
{
    if value { 1 } else { 0 }
}

/// Writes a function.
pub fn push_function(out: &mut Vec<u8>, value: Func) -> Result<(), Memory>
    ensures { OnOk result (Writes (function value) out.old.items out.new.items) }
{
    push_number(out, value.params)?;
    push_number(out, value.locals)?;
    push_number(out, value.entry)?;
    push_number(out, flag(value.suspends))?;
    Ok(())
}

fn push_methods(out: &mut Vec<u8>, methods: &[u32]) -> Result<(), Memory>
    requires { length methods.now ≤ 4294967295 }
    ensures { OnOk result (Writes (table number methods.now) out.old.items out.new.items) }
{
    push_count(out, methods.len())?;
    'entries: for method in methods {
        push_number(out, *method)?;
    }
    Ok(())
}

/// Writes a class.
pub fn push_class(out: &mut Vec<u8>, value: &Class) -> Result<(), Memory>
    requires { length value.now.methods ≤ 4294967295 }
    ensures { OnOk result (Writes (class value.now) out.old.items out.new.items) }
{
    push_number(out, value.slots)?;
    push_methods(out, value.methods.as_slice())?;
    Ok(())
}

fn push_operand(out: &mut Vec<u8>, value: Operand) -> Result<(), Memory>
    ensures { OnOk result (Writes (operand value) out.old.items out.new.items) }
{
    push_number(out, value.1)?;
    Ok(())
}

fn push_operands(out: &mut Vec<u8>, values: Operands) -> Result<(), Memory>
    ensures { OnOk result (Writes (operands values) out.old.items out.new.items) }
{
    match values {
        Operands::Bare => Ok(()),
        Operands::Integer(n) => {
            push_integer(out, n)?;
            Ok(())
        }
        Operands::One(a) => {
            push_operand(out, a)?;
            Ok(())
        }
        Operands::Two(a, b) => {
            push_operand(out, a)?;
            push_operand(out, b)?;
            Ok(())
        }
        Operands::Three(a, b, c) => {
            push_operand(out, a)?;
            push_operand(out, b)?;
            push_operand(out, c)?;
            Ok(())
        }
        Operands::Four(a, b, c, d) => {
            push_operand(out, a)?;
            push_operand(out, b)?;
            push_operand(out, c)?;
            push_operand(out, d)?;
            Ok(())
        }
    }
}

/// Writes an operation.
pub fn push_operation(out: &mut Vec<u8>, op: Op) -> Result<(), Memory>
    ensures { OnOk result (Writes (operation op) out.old.items out.new.items) }
{
    push_byte(out, op.code())?;
    push_operands(out, op.operands())?;
    Ok(())
}
