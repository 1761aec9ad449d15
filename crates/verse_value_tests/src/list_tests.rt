//! Texts, parts, paths and entries.

use crate::checks::Checks;
use crate::handles::{Slot, Table, int, made};
use crate::making::path_to;
use crate::tests::is_shown;
use crate::words::{value, values};
use std::alloc::Global;
use std::test::Fail;
use verse_value::bytes::Bytes;
use verse_value::equality::equal;
use verse_value::keys::Key;
use verse_value::lookups::{is_text, text_bytes};
use verse_value::sizes::weight;
use verse_value::values::{Entries, Parts, Value};
use verse_value_writes::paths::Path;
use verse_value_writes::writes::{Mode, Undo, store, store_logged, take_back};

fn is_equal_int(value: &Value, n: i64) -> bool {
    equal(value, int(n).get())
}

// Whether values are a text of these bytes.
fn are_bytes(alloc: Global, values: &[Value], expected: &[u8]) -> Result<bool, Fail> {
    match text_bytes(alloc, values)? {
        Some(bytes) => Ok(bytes.as_slice() == expected),
        None => Ok(false),
    }
}

fn are_no_bytes(alloc: Global, values: &[Value]) -> Result<bool, Fail> {
    Ok(text_bytes(alloc, values)?.is_none())
}

fn text_checks(alloc: Global) -> Result<Checks, Fail> {
    let mut checks = Checks::new();
    let letters = values(alloc, "c97 c0 c255")?;
    checks.hold("chars are a text", is_text(letters.as_slice()));
    checks.hold(
        "a text has bytes",
        are_bytes(alloc, letters.as_slice(), [97u8, 0, 255].as_slice())?,
    );
    Ok(checks)
}

fn no_text_checks(alloc: Global) -> Result<Checks, Fail> {
    let mut checks = Checks::new();
    let mixed = values(alloc, "c97 97")?;
    checks.hold("an int is in no text", !is_text(mixed.as_slice()));
    checks.hold(
        "no text has no bytes",
        are_no_bytes(alloc, mixed.as_slice())?,
    );
    Ok(checks)
}

#[test]
fn texts_have_bytes(rt: HostRuntime) -> Result<(), Fail> {
    let text = text_checks(rt.alloc())?;
    let no_text = no_text_checks(rt.alloc())?;
    assert_eq!(rt; text.first_failed().or(no_text.first_failed()), None);
    Ok(())
}

fn parts_of(alloc: Global, words: &str) -> Result<Parts, Fail> {
    let values = values(alloc, words)?;
    Ok(Parts::from_vec(values.into_vec()))
}

fn is_second_replaced(parts: &mut Parts) -> bool {
    if 1 < parts.len() {
        let old = Slot::new(parts.replace(1, Value::True));
        is_equal_int(old.get(), 2)
    } else {
        false
    }
}

fn part_checks(alloc: Global) -> Result<Checks, Fail> {
    let mut checks = Checks::new();
    let mut parts = parts_of(alloc, "1 2 3")?;
    checks.hold("three parts", parts.len() == 3);
    checks.hold(
        "the second part is replaced",
        is_second_replaced(&mut parts),
    );
    checks.hold("there is no fourth part", parts.part(3).is_none());
    parts.append(parts_of(alloc, "4 5")?)?;
    parts.truncate(4);
    let tuple = made(Value::tuple(alloc, parts.into_vec()))?;
    checks.hold(
        "four parts are left",
        is_shown(alloc, tuple.get(), "(1, true, 3, 4)")?,
    );
    checks.hold("they weigh 5", weight(tuple.get()) == 5);
    Ok(checks)
}

#[test]
fn parts_are_lists(rt: HostRuntime) -> Result<(), Fail> {
    let checks = part_checks(rt.alloc())?;
    assert_eq!(rt; checks.first_failed(), None);
    Ok(())
}

fn are_two_and_one(indices: &[Value]) -> bool {
    match indices {
        [outer, inner] => is_equal_int(outer, 2) && is_equal_int(inner, 1),
        _ => false,
    }
}

fn path_checks(alloc: Global) -> Result<Checks, Fail> {
    let mut checks = Checks::new();
    let mut path = path_to(alloc, Value::Int(1))?;
    checks.hold("one index", path.len() == 1);
    path.push(Value::Int(2))?;
    path.reverse();
    checks.hold("two indices, reversed", are_two_and_one(path.as_slice()));
    Ok(checks)
}

#[test]
fn paths_are_lists(rt: HostRuntime) -> Result<(), Fail> {
    let checks = path_checks(rt.alloc())?;
    assert_eq!(rt; checks.first_failed(), None);
    Ok(())
}

fn insert_text(table: &mut Table, text: Bytes, value: Slot) -> Result<(), Fail> {
    table.get_mut().insert(Key::Text(text), value.into_value())?;
    Ok(())
}

fn insert_int(table: &mut Table, n: i64, value: Slot) -> Result<(), Fail> {
    table.get_mut().insert(Key::Int(n), value.into_value())?;
    Ok(())
}

// Ten at the text `a`, and thirty at 3.
fn ten_and_thirty(alloc: Global) -> Result<Table, Fail> {
    let letter = Bytes::from_slice(alloc, b"a")?;
    let mut table = Table::new(Entries::new(alloc));
    insert_text(&mut table, letter, int(10))?;
    insert_int(&mut table, 3, int(30))?;
    Ok(table)
}

fn int_place(entries: &Entries, n: i64) -> Option<usize> {
    entries.place(&Key::Int(n))
}

fn char_place(entries: &Entries, c: u8) -> Option<usize> {
    entries.place(&Key::Char(c))
}

fn is_int(key: &Key, n: i64) -> bool {
    *key == Key::Int(n)
}

fn place_of_copy(alloc: Global, entries: &Entries, key: &Key) -> Result<Option<usize>, Fail> {
    let copy = key.copy(alloc)?;
    Ok(entries.place(&copy))
}

// Whether the second key is 3, and the first, copied, leads to the first place.
fn are_keys_found(alloc: Global, entries: &Entries) -> Result<bool, Fail> {
    match entries.keys() {
        [letter, three] => {
            let place = place_of_copy(alloc, entries, letter)?;
            Ok(is_int(three, 3) && place == Some(0))
        }
        _ => Ok(false),
    }
}

fn key_checks(alloc: Global) -> Result<Checks, Fail> {
    let mut checks = Checks::new();
    let table = ten_and_thirty(alloc)?;
    checks.hold("two entries", table.get().len() == 2);
    checks.hold("the place of 3", int_place(table.get(), 3) == Some(1));
    checks.hold("a char has no place", char_place(table.get(), 3).is_none());
    checks.hold("both keys are found", are_keys_found(alloc, table.get())?);
    Ok(checks)
}

#[test]
fn entries_are_found_by_key(rt: HostRuntime) -> Result<(), Fail> {
    let checks = key_checks(rt.alloc())?;
    assert_eq!(rt; checks.first_failed(), None);
    Ok(())
}

// Whether the first value was 11, in whose place 12 is put.
fn is_first_replaced(entries: &mut Entries) -> bool {
    if 0 < entries.len() {
        let old = Slot::new(entries.replace(0, Value::Int(12)));
        is_equal_int(old.get(), 11)
    } else {
        false
    }
}

// Whether the letter is `a`, at which 11 is inserted.
fn is_letter_inserted(alloc: Global, table: &mut Table) -> Result<bool, Fail> {
    let letter = Bytes::from_slice(alloc, b"a")?;
    let is_a = letter.as_slice() == b"a".as_slice();
    insert_text(table, letter, int(11))?;
    Ok(is_a)
}

fn entry_checks(alloc: Global) -> Result<Checks, Fail> {
    let mut checks = Checks::new();
    let mut table = ten_and_thirty(alloc)?;
    checks.hold(
        "the bytes of the key",
        is_letter_inserted(alloc, &mut table)?,
    );
    checks.hold(
        "the first value is replaced",
        is_first_replaced(table.get_mut()),
    );
    table.get_mut().pop();
    let map = made(Value::map(alloc, table.into_entries()))?;
    checks.hold(
        "one entry is left",
        is_shown(alloc, map.get(), "map{\"a\" => 12}")?,
    );
    checks.hold("it weighs 4", weight(map.get()) == 4);
    Ok(checks)
}

#[test]
fn entries_keep_their_places(rt: HostRuntime) -> Result<(), Fail> {
    let checks = entry_checks(rt.alloc())?;
    assert_eq!(rt; checks.first_failed(), None);
    Ok(())
}

// What an array grew to by a write that answers nothing, and whether shortening it undoes that.
fn is_grown_and_shortened(alloc: Global, slot: &mut Value, path: &Path) -> Result<bool, Fail> {
    let more = value(alloc, "[ 3 ,")?;
    let undo = store_logged(alloc, slot, path, Mode::Add, more.into_value())?;
    let grown = is_shown(alloc, slot, "array{array{1, 2, 3}}");
    let shortens = matches!(undo, Undo::Shorten(2));
    take_back(slot, path, undo);
    Ok(grown? && shortens)
}

fn shortening_checks(alloc: Global, slot: &mut Slot, first: &Path) -> Result<Checks, Fail> {
    let mut checks = Checks::new();
    let is_shortened = is_grown_and_shortened(alloc, slot.get_mut(), first)?;
    checks.hold("the array grows, and is shortened", is_shortened);
    checks.hold(
        "it is as it was",
        is_shown(alloc, slot.get(), "array{array{1, 2}}")?,
    );
    checks.hold("it weighs 4", weight(slot.get()) == 4);
    store(alloc, slot.get_mut(), first, Mode::Set, Value::True)?;
    checks.hold("it is put", is_shown(alloc, slot.get(), "array{true}")?);
    checks.hold("it weighs 2", weight(slot.get()) == 2);
    Ok(checks)
}

fn grown_array_checks(alloc: Global) -> Result<Checks, Fail> {
    let mut slot = value(alloc, "[ [ 1 , 2 , ,")?;
    let first = path_to(alloc, Value::Int(0))?;
    shortening_checks(alloc, &mut slot, &first)
}

#[test]
fn a_grown_array_is_shortened(rt: HostRuntime) -> Result<(), Fail> {
    let checks = grown_array_checks(rt.alloc())?;
    assert_eq!(rt; checks.first_failed(), None);
    Ok(())
}
