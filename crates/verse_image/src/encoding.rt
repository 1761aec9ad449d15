//! A code is written as its image.

ghost use Rattle.std.specs.Prelude.{◌≡◌, ◌≤◌, length, All, OnOk, IfOk};
ghost use Rattle.verse_code.specs.Validity.{IsText, IsClass, Valid};
ghost use Rattle.verse_image.specs.Format.{number, text, place, function, class, table, operation};
ghost use Rattle.verse_image.specs.Format.{each, head, tables, Image, version_for, version_of};
ghost use Rattle.verse_image.specs.Writing.{Writes};

use crate::digits::{push_byte, push_bytes, push_number};
use crate::pieces::{push_class, push_count, push_function, push_operation, push_place, push_text};
use std::alloc::Global;
use verse_base::places::Place;
use verse_base::refusals::Memory;
use verse_code::codes::{Class, Code, Func};
use verse_code::operations::Op;
use verse_code::tables::Table;

fn push_texts(out: &mut Vec<u8>, texts: &[Table<u8>]) -> Result<(), Memory>
    requires count { length texts.now ≤ 4294967295 }
    requires texts { All IsText texts.now }
    ensures { OnOk result (Writes (table text texts.now) out.old.items out.new.items) }
{
    push_count(out, texts.len())?;
    'entries: for text in texts {
        push_text(out, text.as_slice())?;
    }
    Ok(())
}

fn push_places(out: &mut Vec<u8>, places: &[Place]) -> Result<(), Memory>
    requires { length places.now ≤ 4294967295 }
    ensures { OnOk result (Writes (table place places.now) out.old.items out.new.items) }
{
    push_count(out, places.len())?;
    'entries: for place in places {
        push_place(out, *place)?;
    }
    Ok(())
}

fn push_functions(out: &mut Vec<u8>, functions: &[Func]) -> Result<(), Memory>
    requires { length functions.now ≤ 4294967295 }
    ensures { OnOk result (Writes (table function functions.now) out.old.items out.new.items) }
{
    push_count(out, functions.len())?;
    'entries: for function in functions {
        push_function(out, *function)?;
    }
    Ok(())
}

fn push_classes(out: &mut Vec<u8>, functions: usize, classes: &[Class]) -> Result<(), Memory>
    requires count { length classes.now ≤ 4294967295 }
    requires classes { All (IsClass functions) classes.now }
    ensures { OnOk result (Writes (table class classes.now) out.old.items out.new.items) }
{
    push_count(out, classes.len())?;
    'entries: for class in classes {
        push_class(out, class)?;
    }
    Ok(())
}

fn push_operations(out: &mut Vec<u8>, ops: &[Op]) -> Result<(), Memory>
    ensures { OnOk result (Writes (each operation ops.now) out.old.items out.new.items) }
{
    'entries: for op in ops {
        push_operation(out, *op)?;
    }
    Ok(())
}

fn version_for(ops: &[Op]) -> u8
    ensures { result ≡ version_for ops.now }
{
    'ops: for op in ops {
        if op.code() > 63 {
            return 2;
        }
    }
    1
}

fn push_head(out: &mut Vec<u8>, version: u8, files: u32, ops: usize) -> Result<(), Memory>
    requires { ops ≤ 4294967295 }
    ensures { OnOk result (Writes (head version files ops) out.old.items out.new.items) }
{
    push_bytes(out, b"VSIM")?;
    push_byte(out, version)?;
    push_number(out, files)?;
    push_count(out, ops)?;
    Ok(())
}

fn push_tables(out: &mut Vec<u8>, code: &Code) -> Result<(), Memory>
    requires { Valid code.now }
    ensures { OnOk result (Writes (tables code.now) out.old.items out.new.items) }
{
    push_texts(out, code.texts.as_slice())?;
    push_places(out, code.places.as_slice())?;
    push_functions(out, code.functions.as_slice())?;
    push_classes(out, code.functions.len(), code.classes.as_slice())?;
    push_number(out, code.main)?;
    Ok(())
}

/// The image of a valid code: in version 1 where each operation's code is at most 63, otherwise in
/// version 2.
pub fn encode(alloc: Global, code: &Code) -> Result<Vec<u8>, Memory>
    requires { Valid code.now }
    ensures { IfOk result (λ bytes. Image (version_of code.now) code.now bytes.items) }
{
    let mut out = Vec::new(alloc);
    let version = version_for(code.ops.as_slice());
    push_head(&mut out, version, code.files, code.ops.len())?;
    push_tables(&mut out, code)?;
    push_operations(&mut out, code.ops.as_slice())?;
    Ok(out)
}
