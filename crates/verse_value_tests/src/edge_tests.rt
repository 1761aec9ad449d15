//! The weight of 4000000 and the 200 levels, at the edge and one past it.

use crate::checks::Checks;
use crate::handles::{Slot, int, made};
use crate::making::{nested, one_entry, pair, path_to};
use crate::tests::{ending, is_shown};
use crate::words::values;
use std::alloc::Global;
use std::test::Fail;
use verse_value::bytes::Bytes;
use verse_value::keys::Key;
use verse_value::lookups::{Step, find};
use verse_value::sizes::{cell_weight, is_fit, levels, weight};
use verse_value::values::{Parts, Value};
use verse_value_writes::paths::Path;
use verse_value_writes::writes::Mode;

// A key of so many bytes.
fn long_key(alloc: Global, count: u32) -> Result<Key, Fail> {
    let mut bytes = Vec::new(alloc);
    for _ in 0..count {
        bytes.push(b'a')?;
    }
    Ok(Key::Text(Bytes::from_vec(bytes)))
}

fn is_set(alloc: Global, slot: &mut Slot, value: Slot, expected: &str) -> bool {
    let here = Path::new(alloc);
    ending(alloc, slot.get_mut(), &here, Mode::Set, value) == expected
}

fn is_joined(alloc: Global, slot: &mut Slot, more: Slot, expected: &str) -> bool {
    let here = Path::new(alloc);
    ending(alloc, slot.get_mut(), &here, Mode::Add, more) == expected
}

fn unit_in_options(alloc: Global, count: u32) -> Result<Slot, Fail> {
    made(nested(alloc, Value::Unit, count))
}

fn levels_checks(alloc: Global) -> Result<Checks, Fail> {
    let mut checks = Checks::new();
    let mut slot = Slot::new(Value::Unit);
    let deep = unit_in_options(alloc, 199)?;
    checks.hold("200 levels", levels(deep.get()) == 200);
    checks.hold("200 levels are fit", is_fit(deep.get()));
    checks.hold("200 levels are set", is_set(alloc, &mut slot, deep, "ok"));
    checks.hold("a slot of 200 levels", levels(slot.get()) == 200);
    let deeper = unit_in_options(alloc, 200)?;
    checks.hold("201 levels", levels(deeper.get()) == 201);
    checks.hold("201 levels are not fit", !is_fit(deeper.get()));
    checks.hold(
        "201 levels are refused",
        is_set(alloc, &mut slot, deeper, "size"),
    );
    checks.hold("200 levels stay", levels(slot.get()) == 200);
    Ok(checks)
}

#[test]
fn two_hundred_levels_are_the_most(rt: HostRuntime) -> Result<(), Fail> {
    let checks = levels_checks(rt.alloc())?;
    assert_eq!(rt; checks.first_failed(), None);
    Ok(())
}

// Whether the write of unit in so many options to the second part comes to this.
fn is_second_set(alloc: Global, slot: &mut Slot, count: u32, expected: &str) -> Result<bool, Fail> {
    let value = unit_in_options(alloc, count)?;
    let second = path_to(alloc, Value::Int(1))?;
    Ok(ending(alloc, slot.get_mut(), &second, Mode::Set, value) == expected)
}

fn deep_part_checks(alloc: Global) -> Result<Checks, Fail> {
    let mut checks = Checks::new();
    let mut slot = made(pair(alloc, Value::Unit, Value::Unit))?;
    checks.hold(
        "199 levels are set",
        is_second_set(alloc, &mut slot, 198, "ok")?,
    );
    checks.hold("200 levels", levels(slot.get()) == 200);
    Ok(checks)
}

fn deeper_part_checks(alloc: Global) -> Result<Checks, Fail> {
    let mut checks = Checks::new();
    let mut slot = made(pair(alloc, Value::True, Value::False))?;
    checks.hold(
        "200 levels are refused",
        is_second_set(alloc, &mut slot, 199, "size")?,
    );
    checks.hold(
        "the parts stay",
        is_shown(alloc, slot.get(), "array{true, false}")?,
    );
    Ok(checks)
}

#[test]
fn a_part_may_make_two_hundred_levels(rt: HostRuntime) -> Result<(), Fail> {
    let deep = deep_part_checks(rt.alloc())?;
    let deeper = deeper_part_checks(rt.alloc())?;
    assert_eq!(rt; deep.first_failed().or(deeper.first_failed()), None);
    Ok(())
}

// A map of this weight, from 3 on, whose key is a long text.
fn heavy(alloc: Global, weight: u32) -> Result<Slot, Fail> {
    let key = long_key(alloc, weight.saturating_sub(3))?;
    made(one_entry(alloc, key, Value::Unit))
}

fn weight_checks(alloc: Global) -> Result<Checks, Fail> {
    let mut checks = Checks::new();
    let mut slot = Slot::new(Value::Unit);
    let most = heavy(alloc, 4000000)?;
    checks.hold("a weight of 4000000", weight(most.get()) == 4000000);
    checks.hold("4000000 are fit", is_fit(most.get()));
    checks.hold("4000000 are set", is_set(alloc, &mut slot, most, "ok"));
    checks.hold("a slot of 4000000", weight(slot.get()) == 4000000);
    let heavier = heavy(alloc, 4000001)?;
    checks.hold("a weight of 4000001", weight(heavier.get()) == 4000001);
    checks.hold("4000001 are not fit", !is_fit(heavier.get()));
    checks.hold(
        "4000001 are refused",
        is_set(alloc, &mut slot, heavier, "size"),
    );
    checks.hold("4000000 stay", weight(slot.get()) == 4000000);
    Ok(checks)
}

#[test]
fn a_key_may_weigh_four_million(rt: HostRuntime) -> Result<(), Fail> {
    let checks = weight_checks(rt.alloc())?;
    assert_eq!(rt; checks.first_failed(), None);
    Ok(())
}

// An array of one value.
fn alone(alloc: Global, value: Slot) -> Result<Slot, Fail> {
    let mut parts = Parts::new(alloc);
    parts.push(value.into_value())?;
    Ok(Slot::new(Value::Array(Box::new(alloc, parts)?)))
}

// An array of one map of this weight.
fn heavy_alone(alloc: Global, weight: u32) -> Result<Slot, Fail> {
    alone(alloc, heavy(alloc, weight)?)
}

fn array_checks(alloc: Global) -> Result<Checks, Fail> {
    let mut checks = Checks::new();
    let mut slot = heavy_alone(alloc, 2000000)?;
    checks.hold("an array of 2000001", weight(slot.get()) == 2000001);
    let more = heavy_alone(alloc, 1999999)?;
    checks.hold(
        "1999999 are joined",
        is_joined(alloc, &mut slot, more, "ok"),
    );
    checks.hold("an array of 4000000", weight(slot.get()) == 4000000);
    let one = alone(alloc, Slot::new(Value::Unit))?;
    checks.hold(
        "one more is refused",
        is_joined(alloc, &mut slot, one, "size"),
    );
    checks.hold("4000000 stay", weight(slot.get()) == 4000000);
    checks.hold(
        "no array is stuck",
        is_joined(alloc, &mut slot, int(1), "stuck"),
    );
    Ok(checks)
}

#[test]
fn an_array_may_weigh_four_million(rt: HostRuntime) -> Result<(), Fail> {
    let checks = array_checks(rt.alloc())?;
    assert_eq!(rt; checks.first_failed(), None);
    Ok(())
}

// A map of this weight, from 5 on, with one entry at 1.
fn heavy_map(alloc: Global, weight: u32) -> Result<Slot, Fail> {
    let value = heavy(alloc, weight.saturating_sub(2))?;
    made(one_entry(alloc, Key::Int(1), value.into_value()))
}

// Whether adding the key 2 with unit to a map comes to this.
fn is_grown(alloc: Global, slot: &mut Slot, expected: &str) -> Result<bool, Fail> {
    let new = path_to(alloc, Value::Int(2))?;
    let unit = Slot::new(Value::Unit);
    Ok(ending(alloc, slot.get_mut(), &new, Mode::Set, unit) == expected)
}

fn is_absent(map: &Value, n: i64) -> bool {
    matches!(find(map, int(n).get()), Step::Absent)
}

fn is_part(map: &Value, n: i64) -> bool {
    matches!(find(map, int(n).get()), Step::Part(_))
}

fn full_map_checks(alloc: Global) -> Result<Checks, Fail> {
    let mut checks = Checks::new();
    let mut slot = heavy_map(alloc, 3999998)?;
    checks.hold("a map of 3999998", weight(slot.get()) == 3999998);
    checks.hold("two more are added", is_grown(alloc, &mut slot, "ok")?);
    checks.hold("a map of 4000000", weight(slot.get()) == 4000000);
    Ok(checks)
}

fn fuller_map_checks(alloc: Global) -> Result<Checks, Fail> {
    let mut checks = Checks::new();
    let mut slot = heavy_map(alloc, 3999999)?;
    checks.hold("a map of 3999999", weight(slot.get()) == 3999999);
    checks.hold("two more are refused", is_grown(alloc, &mut slot, "size")?);
    checks.hold("3999999 stay", weight(slot.get()) == 3999999);
    checks.hold("the key 2 is absent", is_absent(slot.get(), 2));
    checks.hold("the key 1 is there", is_part(slot.get(), 1));
    Ok(checks)
}

#[test]
fn a_new_key_may_make_four_million(rt: HostRuntime) -> Result<(), Fail> {
    let full = full_map_checks(rt.alloc())?;
    let fuller = fuller_map_checks(rt.alloc())?;
    assert_eq!(rt; full.first_failed().or(fuller.first_failed()), None);
    Ok(())
}

fn cell_checks(alloc: Global) -> Result<Checks, Fail> {
    let mut checks = Checks::new();
    let slots = values(alloc, "c97 97 [ 1 ,")?;
    checks.hold("no slot", cell_weight(&[]) == 1);
    checks.hold("three slots", cell_weight(slots.as_slice()) == 5);
    Ok(checks)
}

#[test]
fn cells_weigh_one_more_than_their_slots(rt: HostRuntime) -> Result<(), Fail> {
    let checks = cell_checks(rt.alloc())?;
    assert_eq!(rt; checks.first_failed(), None);
    Ok(())
}
