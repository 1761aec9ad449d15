//! What a write does where its path leads, and takes back again.

ghost use Rattle.std.specs.Prelude.{◌≡◌, ◌∷◌, OnOk, OnErr, IfOk};
ghost use Rattle.verse_value.specs.View.{val_of, vals_of};
ghost use Rattle.verse_value.specs.Val.{array, mapping};
ghost use Rattle.verse_value.specs.Places.{end_of, applied, Allows, put, push, pop, extend};
ghost use Rattle.verse_value.specs.Places.{shorten, there, changed_here};
ghost use Rattle.verse_value_writes.specs.Ends.{end_found};
ghost use Rattle.verse_value_writes.specs.Growing.{grown, parts_there};
ghost use Rattle.verse_value_writes.specs.Changes.{change_of, Replaced, TakesMemory};

use crate::paths::Path;
use std::mem;
use verse_base::refusals::Memory;
use verse_value::keys::Key;
use verse_value::lookups::{Step, find, map_place, part_place};
use verse_value::values::{Entries, Parts, Value};

// Where a path leads in a slot's value.
#[derive(Clone, Copy)]
pub(crate) enum End<'a> {
    There(&'a Value),
    // To a key that the last map lacks, and that is the last index.
    NewKey,
    // Outside an array, or to a key other than a last one that a map lacks.
    Nowhere,
    Unfit,
}

#[derive(Drop)]
pub(crate) enum Change {
    Put(Value),
    Push(Key, Value),
    Pop,
    Extend(Parts),
    Shorten(usize),
}

pub(crate) fn follow<'a>(slot: &'a Value, path: &[Value]) -> End<'a>
    ensures { end_found result ≡ end_of (vals_of path.now) (val_of slot.now) }
{
    match path {
        [] => End::There(slot),
        [index, rest @ ..] => match find(slot, index) {
            Step::Part(part) => follow(part, rest),
            Step::Outside => End::Nowhere,
            Step::Absent if rest.is_empty() => End::NewKey,
            Step::Absent => End::Nowhere,
            Step::Misfit => End::Unfit,
        },
    }
}

// Makes a change where the path leads, and gives the value that was replaced. Only what adds takes
// memory, and takes it before anything is changed.
#[cycle(apply)]
pub(crate) fn apply(
    slot: &mut Value,
    path: &[Value],
    change: Change,
) -> Result<Option<Value>, Memory>
    requires { Allows (end_of (vals_of path.now) (val_of slot.old)) (change_of change) }
    ensures ok { OnOk result (val_of slot.new ≡ applied (vals_of path.now) (change_of change)
        (val_of slot.old)) }
    ensures old { IfOk result (λ old.
        Replaced (change_of change) old (end_of (vals_of path.now) (val_of slot.old))) }
    ensures memory { OnErr result (TakesMemory (change_of change)) }
    ensures err { OnErr result (val_of slot.new ≡ val_of slot.old) }
{
    match path {
        [] => apply_here(slot, change),
        [index, rest @ ..] => match slot {
            Value::Array(parts) => apply_to_part(parts, index, rest, change),
            Value::Map(entries) => apply_to_entry(entries, index, rest, change),
            _ => unreachable!(),
        },
    }
}

#[cycle(apply)]
fn apply_to_part(
    parts: &mut Parts,
    index: &Value,
    path: &[Value],
    made: Change,
) -> Result<Option<Value>, Memory>
    requires { Allows (end_of (val_of index.now ∷ vals_of path.now) (array parts.old))
        (change_of made) }
    ensures ok { OnOk result (array parts.new ≡ applied (val_of index.now ∷ vals_of path.now)
        (change_of made) (array parts.old)) }
    ensures old { IfOk result (λ old.
        Replaced (change_of made) old
        (end_of (val_of index.now ∷ vals_of path.now) (array parts.old))) }
    ensures memory { OnErr result (TakesMemory (change_of made)) }
    ensures err { OnErr result (parts.new ≡ parts.old) }
{
    match part_place(parts.len(), index) {
        Some(Some(at)) => {
            let mut part = parts.replace(at, Value::Unit);
            let outcome = apply(&mut part, path, made);
            let _ = parts.replace(at, part);
            outcome
        }
        Some(None) => unreachable!(),
        None => unreachable!(),
    }
}

#[cycle(apply)]
fn apply_to_entry(
    entries: &mut Entries,
    index: &Value,
    path: &[Value],
    made: Change,
) -> Result<Option<Value>, Memory>
    requires { Allows (end_of (val_of index.now ∷ vals_of path.now) (mapping entries.old))
        (change_of made) }
    ensures ok { OnOk result (mapping entries.new ≡ applied (val_of index.now ∷ vals_of path.now)
        (change_of made) (mapping entries.old)) }
    ensures old { IfOk result (λ old.
        Replaced (change_of made) old
        (end_of (val_of index.now ∷ vals_of path.now) (mapping entries.old))) }
    ensures memory { OnErr result (TakesMemory (change_of made)) }
    ensures err { OnErr result (entries.new ≡ entries.old) }
{
    match map_place(entries, index) {
        Some(Some(at)) => {
            let mut value = entries.replace(at, Value::Unit);
            let outcome = apply(&mut value, path, made);
            let _ = entries.replace(at, value);
            outcome
        }
        Some(None) => unreachable!(),
        None => unreachable!(),
    }
}

fn apply_here(slot: &mut Value, change: Change) -> Result<Option<Value>, Memory>
    requires { Allows (there (val_of slot.old)) (change_of change) }
    ensures ok { OnOk result (val_of slot.new ≡ changed_here (change_of change) (val_of slot.old)) }
    ensures old { IfOk result (λ old. Replaced (change_of change) old (there (val_of slot.old))) }
    ensures memory { OnErr result (TakesMemory (change_of change)) }
    ensures err { OnErr result (val_of slot.new ≡ val_of slot.old) }
{
    match change {
        Change::Put(new) => Ok(Some(mem::replace(slot, new))),
        Change::Push(key, new) => {
            push_key(slot, key, new)?;
            Ok(None)
        }
        Change::Pop => {
            pop_key(slot);
            Ok(None)
        }
        Change::Extend(more) => {
            extend_here(slot, more)?;
            Ok(None)
        }
        Change::Shorten(len) => {
            shorten_here(slot, len);
            Ok(None)
        }
    }
}

fn push_key(slot: &mut Value, key: Key, new: Value) -> Result<(), Memory>
    requires { Allows (there (val_of slot.old)) (push key (val_of new)) }
    ensures ok { OnOk result (val_of slot.new ≡
        changed_here (push key (val_of new)) (val_of slot.old)) }
    ensures err { OnErr result (val_of slot.new ≡ val_of slot.old) }
{
    match slot {
        Value::Map(entries) => push_entry(entries, key, new),
        _ => unreachable!(),
    }
}

fn push_entry(entries: &mut Entries, key: Key, new: Value) -> Result<(), Memory>
    requires { Allows (there (mapping entries.old)) (push key (val_of new)) }
    ensures ok { OnOk result (mapping entries.new ≡
        changed_here (push key (val_of new)) (mapping entries.old)) }
    ensures err { OnErr result (entries.new ≡ entries.old) }
{
    entries.push(key, new)
}

fn pop_key(slot: &mut Value)
    ensures { val_of slot.new ≡ changed_here pop (val_of slot.old) }
{
    if let Value::Map(entries) = slot {
        entries.pop();
    }
}

fn extend_here(slot: &mut Value, more: Parts) -> Result<(), Memory>
    requires { Allows (there (val_of slot.old)) (extend more) }
    ensures ok { OnOk result (val_of slot.new ≡ changed_here (extend more) (val_of slot.old)) }
    ensures err { OnErr result (val_of slot.new ≡ val_of slot.old) }
{
    match slot {
        Value::Array(parts) => parts.append(more),
        _ => unreachable!(),
    }
}

fn shorten_here(slot: &mut Value, len: usize)
    ensures { val_of slot.new ≡ changed_here (shorten len) (val_of slot.old) }
{
    if let Value::Array(parts) = slot {
        parts.truncate(len);
    }
}

/// Puts a value where a path leads, which must be to a value that is there, and gives the old one.
/// Takes no memory.
pub fn put_at(slot: &mut Value, path: &Path, value: Value) -> Value
    requires { Allows (end_of (vals_of path.now) (val_of slot.old)) (put (val_of value)) }
    ensures new { val_of slot.new ≡ applied (vals_of path.now) (put (val_of value))
        (val_of slot.old) }
    ensures old { end_of (vals_of path.now) (val_of slot.old) ≡ there (val_of result) }
    ensures back { applied (vals_of path.now) (put (val_of result)) (val_of slot.new) ≡
        val_of slot.old }
{
    put(slot, path.as_slice(), value)
}

pub(crate) fn put(slot: &mut Value, path: &[Value], value: Value) -> Value
    requires { Allows (end_of (vals_of path.now) (val_of slot.old)) (put (val_of value)) }
    ensures new { val_of slot.new ≡ applied (vals_of path.now) (put (val_of value))
        (val_of slot.old) }
    ensures old { end_of (vals_of path.now) (val_of slot.old) ≡ there (val_of result) }
    ensures there { end_of (vals_of path.now) (val_of slot.new) ≡ there (val_of value) }
    ensures back { applied (vals_of path.now) (put (val_of result)) (val_of slot.new) ≡
        val_of slot.old }
{
    match apply(slot, path, Change::Put(value)) {
        Ok(Some(old)) => old,
        _ => unreachable!(),
    }
}

/// Takes the last key with its value off the map that a path leads to, which must have one. Takes
/// no memory.
pub fn drop_last(slot: &mut Value, path: &Path)
    requires { Allows (end_of (vals_of path.now) (val_of slot.old)) pop }
    ensures { val_of slot.new ≡ applied (vals_of path.now) pop (val_of slot.old) }
{
    take_last(slot, path.as_slice());
}

pub(crate) fn take_last(slot: &mut Value, path: &[Value])
    requires { Allows (end_of (vals_of path.now) (val_of slot.old)) pop }
    ensures { val_of slot.new ≡ applied (vals_of path.now) pop (val_of slot.old) }
{
    match apply(slot, path, Change::Pop) {
        Ok(_) => {}
        Err(_) => unreachable!(),
    }
}

pub(crate) fn add_last(slot: &mut Value, path: &[Value], key: Key, new: Value) -> Result<(), Memory>
    requires { Allows (end_of (vals_of path.now) (val_of slot.old)) (push key (val_of new)) }
    ensures ok { OnOk result (val_of slot.new ≡ applied (vals_of path.now) (push key (val_of new))
        (val_of slot.old)) }
    ensures can_undo { OnOk result (Allows (end_of (vals_of path.now) (val_of slot.new)) pop) }
    ensures undo { OnOk result (applied (vals_of path.now) pop (val_of slot.new) ≡
        val_of slot.old) }
    ensures err { OnErr result (val_of slot.new ≡ val_of slot.old) }
{
    let _ = apply(slot, path, Change::Push(key, new))?;
    Ok(())
}

/// Takes all parts but the first so many off the array that a path leads to. Takes no memory.
pub fn shorten_at(slot: &mut Value, path: &Path, len: usize)
    requires { Allows (end_of (vals_of path.now) (val_of slot.old)) (shorten len) }
    ensures { val_of slot.new ≡ applied (vals_of path.now) (shorten len) (val_of slot.old) }
{
    take_off(slot, path.as_slice(), len);
}

pub(crate) fn take_off(slot: &mut Value, path: &[Value], len: usize)
    requires { Allows (end_of (vals_of path.now) (val_of slot.old)) (shorten len) }
    ensures { val_of slot.new ≡ applied (vals_of path.now) (shorten len) (val_of slot.old) }
{
    match apply(slot, path, Change::Shorten(len)) {
        Ok(_) => {}
        Err(_) => unreachable!(),
    }
}

pub(crate) fn grow(slot: &mut Value, path: &[Value], more: Parts) -> Result<(), Memory>
    requires { Allows (end_of (vals_of path.now) (val_of slot.old)) (extend more) }
    ensures ok { OnOk result (val_of slot.new ≡
        applied (vals_of path.now) (put (grown (end_of (vals_of path.now) (val_of slot.old)) more))
        (val_of slot.old)) }
    ensures there { OnOk result (end_of (vals_of path.now) (val_of slot.new) ≡
        there (grown (end_of (vals_of path.now) (val_of slot.old)) more)) }
    ensures can_undo { OnOk result
        (Allows (end_of (vals_of path.now) (val_of slot.new))
        (shorten (parts_there (end_of (vals_of path.now) (val_of slot.old))))) }
    ensures undo { OnOk result (applied (vals_of path.now)
        (shorten (parts_there (end_of (vals_of path.now) (val_of slot.old)))) (val_of slot.new) ≡
        val_of slot.old) }
    ensures err { OnErr result (val_of slot.new ≡ val_of slot.old) }
{
    let _ = apply(slot, path, Change::Extend(more))?;
    Ok(())
}
