//! Keys of maps are written.

ghost use Rattle.std.specs.Prelude.{◌≡◌, OnOk, length};
ghost use Rattle.verse_image.specs.Format.{◌⨾◌, byte, plain, number, integer, flag};
ghost use Rattle.verse_image.specs.Writing.{Writes};
ghost use Rattle.run_save_format.specs.Format.{wide, key_field};

use crate::numbers::{push_count, push_wide};
use verse_base::refusals::Memory;
use verse_image::digits::{push_byte, push_bytes, push_integer, push_number};
use verse_value::keys::Key;

/// Writes a form and an integer.
pub fn push_int(out: &mut Vec<u8>, form: u8, value: i64) -> Result<(), Memory>
    ensures { OnOk result (Writes (byte form ⨾ integer value) out.old.items out.new.items) }
{
    push_byte(out, form)?;
    push_integer(out, value)?;
    Ok(())
}

/// Writes a form and a char.
pub fn push_char(out: &mut Vec<u8>, form: u8, value: u8) -> Result<(), Memory>
    ensures { OnOk result (Writes (byte form ⨾ wide value) out.old.items out.new.items) }
{
    push_byte(out, form)?;
    push_wide(out, value as u64)?;
    Ok(())
}

/// Writes a form and a value of an enum: the enum's number, and its own.
pub fn push_enum(out: &mut Vec<u8>, form: u8, of: u32, at: u32) -> Result<(), Memory>
    ensures { OnOk result (Writes (byte form ⨾ number of ⨾ number at)
        out.old.items out.new.items) }
{
    push_byte(out, form)?;
    push_number(out, of)?;
    push_number(out, at)?;
    Ok(())
}

fn push_logic(out: &mut Vec<u8>, value: bool) -> Result<(), Memory>
    ensures { OnOk result (Writes (byte 1 ⨾ byte (flag value)) out.old.items out.new.items) }
{
    push_byte(out, 1)?;
    push_byte(out, if value { 1 } else { 0 })?;
    Ok(())
}

fn push_text(out: &mut Vec<u8>, bytes: &[u8]) -> Result<(), Memory>
    ensures { OnOk result (Writes (byte 4 ⨾ wide (length bytes.now) ⨾ plain bytes.now)
        out.old.items out.new.items) }
{
    push_byte(out, 4)?;
    push_count(out, bytes.len())?;
    push_bytes(out, bytes)?;
    Ok(())
}

/// Writes a key.
pub fn push_key(out: &mut Vec<u8>, key: &Key) -> Result<(), Memory>
    ensures { OnOk result (Writes (key_field key.now) out.old.items out.new.items) }
{
    match key {
        Key::Int(n) => push_int(out, 0, *n),
        Key::Logic(b) => push_logic(out, *b),
        Key::Char(c) => push_char(out, 2, *c),
        Key::Enum(of, at) => push_enum(out, 3, *of, *at),
        Key::Text(bytes) => push_text(out, bytes.as_slice()),
    }
}
