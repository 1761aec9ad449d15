//! Values are written.

ghost use Rattle.std.specs.Prelude.{◌≡◌, OnOk, length};
ghost use Rattle.std.specs.List.{zip};
ghost use Rattle.verse_value.specs.Val.{some, list_of, mapping};
ghost use Rattle.verse_value.specs.View.{val_of, vals_of};
ghost use Rattle.verse_image.specs.Format.{◌⨾◌, byte, number, each};
ghost use Rattle.verse_image.specs.Writing.{Writes};
ghost use Rattle.run_save_format.specs.Format.{wide, value, values, list};
ghost use Rattle.run_save_writer.specs.Entries.{entries};

use crate::keys::{push_char, push_enum, push_int, push_key};
use crate::numbers::push_count;
use verse_base::refusals::Memory;
use verse_image::digits::{push_byte, push_number};
use verse_value::keys::Key;
use verse_value::values::{Entries, Held, Parts, Value};

fn push_reference(out: &mut Vec<u8>, form: u8, at: u32) -> Result<(), Memory>
    ensures { OnOk result (Writes (byte form ⨾ number at) out.old.items out.new.items) }
{
    push_byte(out, form)?;
    push_number(out, at)?;
    Ok(())
}

/// Writes a value.
#[cycle(push_value)]
pub fn push_value(out: &mut Vec<u8>, v: &Value) -> Result<(), Memory>
    ensures { OnOk result (Writes (value (val_of v.now)) out.old.items out.new.items) }
{
    match v {
        Value::Unit => push_byte(out, 0),
        Value::False => push_byte(out, 1),
        Value::True => push_byte(out, 2),
        Value::Int(n) => push_int(out, 3, *n),
        Value::Char(c) => push_char(out, 4, *c),
        Value::Enum(of, at) => push_enum(out, 5, *of, *at),
        Value::Obj(cell) => push_reference(out, 6, *cell),
        Value::Event(cell) => push_reference(out, 7, *cell),
        Value::Task(entry) => push_reference(out, 8, *entry),
        Value::Some(held) => push_option(out, held),
        Value::Array(parts) => push_parts(out, 10, parts),
        Value::Map(map) => push_map(out, map),
        Value::Tuple(parts) => push_parts(out, 12, parts),
    }
}

#[cycle(push_value)]
fn push_option(out: &mut Vec<u8>, held: &Held) -> Result<(), Memory>
    ensures { OnOk result (Writes (value (some held.now)) out.old.items out.new.items) }
{
    push_byte(out, 9)?;
    push_value(out, held.part())?;
    Ok(())
}

#[cycle(push_value)]
fn push_parts(out: &mut Vec<u8>, form: u8, parts: &Parts) -> Result<(), Memory>
    ensures { OnOk result (Writes (byte form ⨾ wide (length (list_of parts.now)) ⨾ values parts.now)
        out.old.items out.new.items) }
{
    let parts = parts.as_slice();
    push_byte(out, form)?;
    push_count(out, parts.len())?;
    push_each(out, parts)?;
    Ok(())
}

#[cycle(push_value)]
fn push_each(out: &mut Vec<u8>, parts: &[Value]) -> Result<(), Memory>
    ensures { OnOk result (Writes (each value (vals_of parts.now)) out.old.items out.new.items) }
{
    'entries: for entry in parts {
        push_value(out, entry)?;
    }
    Ok(())
}

#[cycle(push_value)]
fn push_map(out: &mut Vec<u8>, map: &Entries) -> Result<(), Memory>
    ensures { OnOk result (Writes (value (mapping map.now)) out.old.items out.new.items) }
{
    let keys = map.keys();
    push_byte(out, 11)?;
    push_count(out, keys.len())?;
    push_entries(out, keys, map.values())?;
    Ok(())
}

#[cycle(push_value)]
fn push_entries(out: &mut Vec<u8>, keys: &[Key], parts: &[Value]) -> Result<(), Memory>
    requires { length parts.now ≡ length keys.now }
    ensures { OnOk result (Writes (entries keys.now parts.now) out.old.items out.new.items) }
{
    'entries: for i in 0..keys.len() {
        push_key(out, &keys[i])?;
        push_value(out, &parts[i])?;
    }
    Ok(())
}

/// Writes how many values there are, and then each.
pub fn push_values(out: &mut Vec<u8>, parts: &[Value]) -> Result<(), Memory>
    ensures { OnOk result (Writes (list value (vals_of parts.now)) out.old.items out.new.items) }
{
    push_count(out, parts.len())?;
    push_each(out, parts)?;
    Ok(())
}
