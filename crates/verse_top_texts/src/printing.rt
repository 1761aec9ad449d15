//! The text of a value.

ghost use Rattle.std.specs.Prelude.{◌≡◌, ◌<◌, ◌++◌, [], ◌∷◌, Some, codes, decimal, length, zip};
ghost use Rattle.std.specs.Prelude.{OnOk, OnErr};
ghost use Rattle.verse_value.specs.Keys.{bytes_of};
ghost use Rattle.verse_value.specs.View.{val_of, vals_of};
ghost use Rattle.verse_value.specs.Val.{vals, pairs};
ghost use Rattle.verse_value.specs.Texts.{text_of, list_text, pairs_text, array_text, map_text};
ghost use Rattle.verse_value.specs.Texts.{entry_text, key_text, quoted, escaped, hex_digit};
ghost use Rattle.verse_value.specs.Texts.{hex_pair, enum_text, char_text, plain, KeysAreValues};

use std::alloc::Global;
use verse_base::refusals::Memory;
use verse_base::texts::{decimal, natural};
use verse_value::keys::Key;
use verse_value::lookups::text_bytes;
use verse_value::values::{Entries, Value};

/// A key is the value that it stands for, and is printed as that value.
pub fn keys_are_values()
    ensures { KeysAreValues }
{}

/// Appends the text of a value. After want of memory `out` is as it was.
pub fn text(v: &Value, out: &mut Vec<u8>) -> Result<(), Memory>
    ensures ok { OnOk result (out.new.items ≡ out.old.items ++ text_of (val_of v.now)) }
    ensures err { OnErr result (out.new.items ≡ out.old.items) }
{
    let alloc = *out.allocator();
    let mut text = Vec::new(alloc);
    append(alloc, v, &mut text)?;
    out.extend_from_slice(text.as_slice())?;
    Ok(())
}

#[cycle(append)]
fn append(alloc: Global, v: &Value, out: &mut Vec<u8>) -> Result<(), Memory>
    ensures { OnOk result (out.new.items ≡ out.old.items ++ text_of (val_of v.now)) }
{
    match v {
        Value::Unit => append_bytes(out, b"()")?,
        Value::False => append_bytes(out, b"false")?,
        Value::True => append_bytes(out, b"true")?,
        Value::Int(n) => decimal(*n, out)?,
        Value::Char(c) => append_char(out, *c)?,
        Value::Enum(of, at) => append_enum(out, *of, *at)?,
        Value::Obj(cell) => append_numbered(out, b'@', *cell)?,
        Value::Event(cell) => append_numbered(out, b'!', *cell)?,
        Value::Task(number) => append_numbered(out, b'~', *number)?,
        Value::Some(held) => append_option(alloc, held.part(), out)?,
        Value::Array(parts) => append_array(alloc, parts.as_slice(), out)?,
        Value::Map(entries) => append_map(alloc, entries, out)?,
        Value::Tuple(parts) => append_tuple(alloc, parts.as_slice(), out)?,
    }
    Ok(())
}

#[cycle(append)]
fn append_option(alloc: Global, part: &Value, out: &mut Vec<u8>) -> Result<(), Memory>
    ensures { OnOk result (out.new.items ≡ out.old.items ++
        (codes "option{" ++ (text_of (val_of part.now) ++ codes "}"))) }
{
    append_bytes(out, b"option{")?;
    append(alloc, part, out)?;
    append_bytes(out, b"}")?;
    Ok(())
}

#[cycle(append)]
fn append_tuple(alloc: Global, parts: &[Value], out: &mut Vec<u8>) -> Result<(), Memory>
    ensures { OnOk result (out.new.items ≡ out.old.items ++
        (codes "(" ++ (list_text (vals (vals_of parts.now)) ++ codes ")"))) }
{
    append_bytes(out, b"(")?;
    append_list(alloc, parts, out)?;
    append_bytes(out, b")")?;
    Ok(())
}

#[cycle(append)]
fn append_array(alloc: Global, parts: &[Value], out: &mut Vec<u8>) -> Result<(), Memory>
    ensures { OnOk result (out.new.items ≡ out.old.items ++
        array_text (bytes_of (vals (vals_of parts.now))) (list_text (vals (vals_of parts.now)))) }
{
    if let Some(bytes) = text_bytes(alloc, parts)? {
        if !bytes.is_empty() {
            append_quoted(out, bytes.as_slice())?;
            return Ok(());
        }
    }
    append_bytes(out, b"array{")?;
    append_list(alloc, parts, out)?;
    append_bytes(out, b"}")?;
    Ok(())
}

#[cycle(append)]
fn append_list(alloc: Global, parts: &[Value], out: &mut Vec<u8>) -> Result<(), Memory>
    ensures { OnOk result (out.new.items ≡ out.old.items ++ list_text (vals (vals_of parts.now))) }
{
    let [first, rest @ ..] = parts else {
        return Ok(());
    };
    append(alloc, first, out)?;
    'parts: for part in rest {
        append_bytes(out, b", ")?;
        append(alloc, part, out)?;
    }
    Ok(())
}

#[cycle(append)]
fn append_map(alloc: Global, entries: &Entries, out: &mut Vec<u8>) -> Result<(), Memory>
    ensures { OnOk result (out.new.items ≡ out.old.items ++ map_text entries.now) }
{
    append_bytes(out, b"map{")?;
    append_entries(alloc, entries.keys(), entries.values(), out)?;
    append_bytes(out, b"}")?;
    Ok(())
}

#[cycle(append)]
fn append_entries(
    alloc: Global,
    keys: &[Key],
    values: &[Value],
    out: &mut Vec<u8>,
) -> Result<(), Memory>
    requires { length values.now ≡ length keys.now }
    ensures { OnOk result (out.new.items ≡ out.old.items ++
        pairs_text (pairs (zip keys.now (vals_of values.now)))) }
{
    if values.is_empty() {
        return Ok(());
    }
    append_entry(alloc, &keys[0], &values[0], out)?;
    'entries: for i in 1..values.len() {
        append_bytes(out, b", ")?;
        append_entry(alloc, &keys[i], &values[i], out)?;
    }
    Ok(())
}

#[cycle(append)]
fn append_entry(alloc: Global, key: &Key, value: &Value, out: &mut Vec<u8>) -> Result<(), Memory>
    ensures { OnOk result (out.new.items ≡ out.old.items ++
        entry_text key.now (text_of (val_of value.now))) }
{
    append_key(out, key)?;
    append_bytes(out, b" => ")?;
    append(alloc, value, out)?;
    Ok(())
}

fn append_key(out: &mut Vec<u8>, key: &Key) -> Result<(), Memory>
    ensures { OnOk result (out.new.items ≡ out.old.items ++ key_text key.now) }
{
    match key {
        Key::Int(n) => decimal(*n, out)?,
        Key::Logic(true) => append_bytes(out, b"true")?,
        Key::Logic(false) => append_bytes(out, b"false")?,
        Key::Char(c) => append_char(out, *c)?,
        Key::Enum(of, at) => append_enum(out, *of, *at)?,
        Key::Text(bytes) => append_text(out, bytes.as_slice())?,
    }
    Ok(())
}

fn append_text(out: &mut Vec<u8>, bytes: &[u8]) -> Result<(), Memory>
    ensures { OnOk result (out.new.items ≡ out.old.items ++ array_text (Some bytes.now) []) }
{
    match bytes {
        [] => append_bytes(out, b"array{}")?,
        [_, ..] => append_quoted(out, bytes)?,
    }
    Ok(())
}

fn append_enum(out: &mut Vec<u8>, of: u32, at: u32) -> Result<(), Memory>
    ensures { OnOk result (out.new.items ≡ out.old.items ++ enum_text of at) }
{
    append_numbered(out, b'#', of)?;
    append_numbered(out, b'.', at)?;
    Ok(())
}

fn append_numbered(out: &mut Vec<u8>, mark: u8, number: u32) -> Result<(), Memory>
    ensures { OnOk result (out.new.items ≡ out.old.items ++ mark ∷ decimal number) }
{
    out.push(mark)?;
    natural(u64::from(number), out)?;
    Ok(())
}

fn append_char(out: &mut Vec<u8>, c: u8) -> Result<(), Memory>
    ensures { OnOk result (out.new.items ≡ out.old.items ++ char_text c) }
{
    append_bytes(out, b"0o")?;
    append_hex(out, c)?;
    Ok(())
}

fn append_hex(out: &mut Vec<u8>, byte: u8) -> Result<(), Memory>
    ensures { OnOk result (out.new.items ≡ out.old.items ++ hex_pair byte) }
{
    out.push(glyph(byte / 16))?;
    out.push(glyph(byte % 16))?;
    Ok(())
}

fn glyph(d: u8) -> u8
    requires { d < 16 }
    ensures { result ≡ hex_digit d }
{
    if d < 10 { 48 + d } else { 87 + d }
}

fn append_quoted(out: &mut Vec<u8>, bytes: &[u8]) -> Result<(), Memory>
    ensures { OnOk result (out.new.items ≡ out.old.items ++ quoted bytes.now) }
{
    out.push(b'"')?;
    'bytes: for byte in bytes {
        append_escaped(out, *byte)?;
    }
    out.push(b'"')?;
    Ok(())
}

fn append_escaped(out: &mut Vec<u8>, byte: u8) -> Result<(), Memory>
    ensures { OnOk result (out.new.items ≡ out.old.items ++ escaped byte) }
{
    if is_plain(byte) {
        out.push(byte)?;
        return Ok(());
    }
    append_bytes(out, b"\\x")?;
    append_hex(out, byte)?;
    Ok(())
}

fn is_plain(byte: u8) -> bool
    ensures { result ≡ plain byte }
{
    0x20 <= byte && byte <= 0x7e && byte != b'"' && byte != b'\\'
}

fn append_bytes(out: &mut Vec<u8>, bytes: &[u8]) -> Result<(), Memory>
    ensures { OnOk result (out.new.items ≡ out.old.items ++ bytes.now) }
{
    out.extend_from_slice(bytes)?;
    Ok(())
}
