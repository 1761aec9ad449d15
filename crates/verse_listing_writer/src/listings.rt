//! A code is written as its listing.

ghost use Rattle.std.specs.Prelude.{◌≡◌, ◌++◌, All, IfOk, OnOk, map};
ghost use Rattle.verse_code.specs.Operations.{operands_of};
ghost use Rattle.verse_code.specs.Validity.{Valid};
ghost use Rattle.verse_listing_format.specs.Format.{AreBytes, AreSized, IsNumber, IsSizedPlace};
ghost use Rattle.verse_listing_format.specs.Format.{class_line, function_line, op_lines};
ghost use Rattle.verse_listing_format.specs.Format.{place_line};
ghost use Rattle.verse_listing_format.specs.Format.{Listing, spelled, table_lines, text_line};
ghost use Rattle.verse_listing_writer.specs.Writing.{AreSizedTables};

use crate::lines::{
    push_class, push_files, push_function, push_main, push_operation, push_ops, push_place,
    push_text,
};
use std::alloc::Global;
use verse_base::places::Place;
use verse_base::refusals::Memory;
use verse_code::codes::{Class, Code, Func};
use verse_code::operations::Op;
use verse_code::tables::Table;

fn push_texts(out: &mut Vec<u8>, texts: &[Table<u8>]) -> Result<(), Memory>
    ensures written { OnOk result (out.new.items ≡ out.old.items ++ spelled (map text_line texts.now)) }
    ensures sized { OnOk result (All AreBytes texts.now) }
{
    'entries: for text in texts {
        push_text(out, text.as_slice())?;
    }
    Ok(())
}

fn push_places(out: &mut Vec<u8>, places: &[Place]) -> Result<(), Memory>
    ensures written { OnOk result (out.new.items ≡ out.old.items ++ spelled (map place_line places.now)) }
    ensures sized { OnOk result (All IsSizedPlace places.now) }
{
    'entries: for place in places {
        push_place(out, *place)?;
    }
    Ok(())
}

fn push_functions(out: &mut Vec<u8>, functions: &[Func]) -> Result<(), Memory>
    ensures { OnOk result (out.new.items ≡ out.old.items ++
        spelled (map function_line functions.now)) }
{
    'entries: for function in functions {
        push_function(out, *function)?;
    }
    Ok(())
}

fn push_classes(out: &mut Vec<u8>, classes: &[Class]) -> Result<(), Memory>
    ensures written { OnOk result (out.new.items ≡ out.old.items ++ spelled (map class_line classes.now)) }
    ensures sized { OnOk result (All (λ c. IsNumber c.slots) classes.now) }
{
    'entries: for class in classes {
        push_class(out, class)?;
    }
    Ok(())
}

fn push_operations(out: &mut Vec<u8>, ops: &[Op]) -> Result<(), Memory>
    ensures written { OnOk result (out.new.items ≡ out.old.items ++ spelled (op_lines 0 ops.now)) }
    ensures sized { OnOk result (All (λ op. AreSized (operands_of op)) ops.now) }
{
    'entries: for at in 0..ops.len() {
        push_operation(out, at, ops[at])?;
    }
    Ok(())
}

fn push_tables(out: &mut Vec<u8>, code: &Code) -> Result<(), Memory>
    ensures written { OnOk result (out.new.items ≡ out.old.items ++
        spelled (table_lines code.now.texts code.now.places code.now.functions code.now.classes)) }
    ensures sized { OnOk result (AreSizedTables code.now) }
{
    push_texts(out, code.texts.as_slice())?;
    push_places(out, code.places.as_slice())?;
    push_functions(out, code.functions.as_slice())?;
    push_classes(out, code.classes.as_slice())?;
    Ok(())
}

/// The listing of a valid code.
pub fn list(alloc: Global, code: &Code) -> Result<Vec<u8>, Memory>
    requires { Valid code.now }
    ensures { IfOk result (λ bytes. Listing code.now bytes.items) }
{
    let mut out = Vec::new(alloc);
    push_files(&mut out, code.files)?;
    push_ops(&mut out, code.ops.len())?;
    push_tables(&mut out, code)?;
    push_main(&mut out, code.main)?;
    push_operations(&mut out, code.ops.as_slice())?;
    Ok(out)
}
