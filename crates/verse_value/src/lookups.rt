//! What an index leads to in a value.

ghost use Rattle.std.specs.Prelude.{◌≡◌, ◌≢◌, ◌↔◌, ◌<◌, Some, is_some, length, IsTrue, IfOk};
ghost use Rattle.std.specs.Prelude.{IfSome, option_map};
ghost use Rattle.verse_value.specs.View.{val_of, vals_of};
ghost use Rattle.verse_value.specs.Val.{array, vals};
ghost use Rattle.verse_value.specs.Keys.{key_of, byte_of, bytes_of};
ghost use Rattle.verse_value.specs.Entries.{key_place};
ghost use Rattle.verse_value.specs.Parts.{keys_in};
ghost use Rattle.verse_value.specs.Places.{step_in, in_array, in_map, found, misfit, int_of};
ghost use Rattle.verse_value.specs.Places.{place_in};
ghost use Rattle.verse_value.specs.Lookups.{step_of};
ghost use Rattle.verse_value.specs.declared.keys.Key.TheVariants as key;

use crate::bytes::Bytes;
use crate::keys::Key;
use crate::values::{Entries, Parts, Value};
use std::alloc::Global;
use verse_base::refusals::Memory;

/// What an index leads to in a value.
#[derive(Clone, Copy)]
pub enum Step<'a> {
    /// The element of an array, or the value at a key.
    Part(&'a Value),
    /// No element of the array has this index.
    Outside,
    /// The map lacks the key.
    Absent,
    /// The index doesn't go with the value: an array takes an int, a map a key.
    Misfit,
}

/// What an index leads to in a value. An array is read by place, and a key that is no text is found
/// by hash; a text is compared with the keys one after the other, so that no key is made.
pub fn find<'a>(v: &'a Value, index: &Value) -> Step<'a>
    ensures { step_of result ≡ step_in (val_of v.now) (val_of index.now) }
{
    match v {
        Value::Array(parts) => in_parts(parts, index),
        Value::Map(entries) => in_entries(entries, index),
        _ => Step::Misfit,
    }
}

#[tactic(auto, using(crate::proofs::RuleSets::of_in_parts))]
fn in_parts<'a>(parts: &'a Parts, index: &Value) -> Step<'a>
    ensures { step_of result ≡ in_array parts.now (val_of index.now) }
{
    match part_place(parts.len(), index) {
        Some(Some(at)) => match parts.part(at) {
            Some(part) => Step::Part(part),
            None => Step::Outside,
        },
        Some(None) => Step::Outside,
        None => Step::Misfit,
    }
}

#[tactic(auto, using(crate::proofs::RuleSets::of_in_entries))]
fn in_entries<'a>(entries: &'a Entries, index: &Value) -> Step<'a>
    ensures { step_of result ≡ in_map entries.now (key_of (val_of index.now)) }
{
    match map_place(entries, index) {
        Some(Some(at)) => match entries.value(at) {
            Some(part) => Step::Part(part),
            None => Step::Absent,
        },
        Some(None) => Step::Absent,
        None => Step::Misfit,
    }
}

/// The element of an array or the value at a key; `None` exactly where the index is outside the
/// array or the map lacks the key.
pub fn at<'a>(v: &'a Value, index: &Value) -> Option<&'a Value>
    requires { step_in (val_of v.now) (val_of index.now) ≢ misfit }
    ensures { option_map (λ part. val_of part.now) result ≡
        found (step_in (val_of v.now) (val_of index.now)) }
{
    match find(v, index) {
        Step::Part(part) => Some(part),
        _ => None,
    }
}

/// Where the int that an index is leads in that many parts: `None` where it is no int, and `None`
/// within where it leads to none of them.
pub fn part_place(len: usize, index: &Value) -> Option<Option<usize>>
    ensures { result ≡ option_map (place_in len) (int_of (val_of index.now)) }
{
    match index {
        Value::Int(n) => Some(array_place(len, *n)),
        _ => None,
    }
}

fn array_place(len: usize, index: i64) -> Option<usize>
    ensures { result ≡ place_in len index }
{
    let at = usize::try_from(index).ok()?;
    if at < len { Some(at) } else { None }
}

/// Where the key that an index is stands in a map: `None` where it is no key, and `None` within
/// where the map lacks it.
pub fn map_place(entries: &Entries, index: &Value) -> Option<Option<usize>>
    ensures { result ≡ option_map (λ k. key_place k (keys_in entries.now))
        (key_of (val_of index.now)) }
{
    match index {
        Value::Int(n) => Some(entries.place(&Key::Int(*n))),
        Value::False => Some(entries.place(&Key::Logic(false))),
        Value::True => Some(entries.place(&Key::Logic(true))),
        Value::Char(c) => Some(entries.place(&Key::Char(*c))),
        Value::Enum(of, at) => Some(entries.place(&Key::Enum(*of, *at))),
        Value::Array(parts) => text_place(entries.keys(), parts.as_slice()),
        _ => None,
    }
}

fn text_place(keys: &[Key], parts: &[Value]) -> Option<Option<usize>>
    ensures { result ≡ option_map (λ bytes. key_place (key.Text bytes) keys.now)
        (bytes_of (vals (vals_of parts.now))) }
{
    'keys: for i in 0..keys.len() {
        if is_text_key(&keys[i], parts) {
            return Some(Some(i));
        }
    }
    if is_text(parts) { Some(None) } else { None }
}

fn char_of(value: &Value) -> Option<u8>
    ensures { result ≡ byte_of (val_of value.now) }
{
    match value {
        Value::Char(c) => Some(*c),
        _ => None,
    }
}

/// Whether all of these are chars.
pub fn is_text(parts: &[Value]) -> bool
    ensures { result ≡ is_some (bytes_of (vals (vals_of parts.now))) }
{
    'parts: for part in parts {
        if char_of(part).is_none() {
            return false;
        }
    }
    true
}

// Whether a key is the text of these chars.
fn is_text_key(key: &Key, parts: &[Value]) -> bool
    ensures { IsTrue result ↔ (key_of (array (vals (vals_of parts.now))) ≡ Some key.now) }
{
    match key {
        Key::Text(bytes) => same_text(bytes.as_slice(), parts),
        _ => false,
    }
}

fn same_text(bytes: &[u8], parts: &[Value]) -> bool
    ensures { IsTrue result ↔ (bytes_of (vals (vals_of parts.now)) ≡ Some bytes.now) }
{
    if bytes.len() != parts.len() {
        return false;
    }
    'bytes: for i in 0..bytes.len() {
        if char_of(&parts[i]) != Some(bytes[i]) {
            return false;
        }
    }
    true
}

/// The key that a value is, or `None` where it is none: an int, a logic, a char, a value of an enum
/// and an array of chars alone are keys.
pub fn key_from(alloc: Global, value: &Value) -> Result<Option<Key>, Memory>
    ensures { IfOk result (λ k. k ≡ key_of (val_of value.now)) }
{
    match value {
        Value::Int(n) => Ok(Some(Key::Int(*n))),
        Value::False => Ok(Some(Key::Logic(false))),
        Value::True => Ok(Some(Key::Logic(true))),
        Value::Char(c) => Ok(Some(Key::Char(*c))),
        Value::Enum(of, at) => Ok(Some(Key::Enum(*of, *at))),
        Value::Array(parts) => match text_bytes(alloc, parts.as_slice())? {
            Some(bytes) => Ok(Some(Key::Text(Bytes::from_vec(bytes)))),
            None => Ok(None),
        },
        _ => Ok(None),
    }
}

/// The bytes of a list of chars alone, or `None` where another value is among them.
pub fn text_bytes(alloc: Global, parts: &[Value]) -> Result<Option<Vec<u8>>, Memory>
    ensures { IfOk result (λ o. option_map (λ bytes. bytes.items) o ≡
        bytes_of (vals (vals_of parts.now))) }
{
    let mut bytes = Vec::with_capacity(alloc, parts.len())?;
    'parts: for part in parts {
        match char_of(part) {
            Some(c) => bytes.push(c)?,
            None => return Ok(None),
        }
    }
    Ok(Some(bytes))
}
