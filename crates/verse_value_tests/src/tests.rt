//! Every kind of value through every call, by the tables.

use crate::handles::{Slot, Stack, made};
use crate::making::{one_entry, path_to};
use crate::tables::{CHANGES, READS, SAME, VALUES, WRITES};
use crate::using::{change_back, read};
use crate::words::{path, value};
use std::alloc::Global;
use std::test::Fail;
use verse_base::refusals::Kind;
use verse_top_texts::printing::{keys_are_values, text};
use verse_value::equality::equal;
use verse_value::lookups::{Step, find, key_from};
use verse_value::sizes::{is_fit, levels, weight};
use verse_value::values::{Value, copy_all};
use verse_value_writes::paths::Path;
use verse_value_writes::writes::{Mode, WriteFault, Written, take_back, write, write_logged};

fn shown(alloc: Global, value: &Value) -> Result<String, Fail> {
    let mut out = Vec::new(alloc);
    text(value, &mut out)?;
    let shown = String::from_utf8(out)?;
    Ok(shown)
}

pub(crate) fn is_shown(alloc: Global, value: &Value, expected: &str) -> Result<bool, Fail> {
    let shown = shown(alloc, value)?;
    Ok(shown.as_str() == expected)
}

fn shown_as_key(alloc: Global, value: &Value) -> Result<String, Fail> {
    match key_from(alloc, value)? {
        Some(key) => {
            let map = made(one_entry(alloc, key, Value::Unit))?;
            shown(alloc, map.get())
        }
        None => Ok(format!(in alloc; "-")?),
    }
}

fn described(alloc: Global, value: &Value) -> Result<String, Fail> {
    let text = shown(alloc, value)?;
    let key = shown_as_key(alloc, value)?;
    let weight = weight(value);
    let levels = levels(value);
    Ok(format!(in alloc; "{text} | {weight} | {levels} | {key}")?)
}

fn is_described(alloc: Global, value: &Value, expected: &str) -> Result<bool, Fail> {
    let found = described(alloc, value)?;
    Ok(found.as_str() == expected)
}

fn is_copy_described(alloc: Global, value: &Value, expected: &str) -> Result<bool, Fail> {
    let copy = made(value.copy(alloc))?;
    is_described(alloc, copy.get(), expected)
}

// Whether a value and its copy are described as a row has it, and the value is fit.
fn is_described_so(alloc: Global, words: &str, expected: &str) -> Result<bool, Fail> {
    let slot = value(alloc, words)?;
    let value = slot.get();
    let so = is_described(alloc, value, expected)? && is_copy_described(alloc, value, expected)?;
    Ok(so && is_fit(value))
}

fn are_same(alloc: Global, first: &str, second: &str) -> Result<bool, Fail> {
    let first = value(alloc, first)?;
    let second = value(alloc, second)?;
    Ok(equal(first.get(), second.get()))
}

fn step_name(alloc: Global, step: Step) -> Result<String, Fail> {
    match step {
        Step::Part(part) => {
            let text = shown(alloc, part)?;
            Ok(format!(in alloc; "= {text}")?)
        }
        Step::Outside => Ok(format!(in alloc; "outside")?),
        Step::Absent => Ok(format!(in alloc; "absent")?),
        Step::Misfit => Ok(format!(in alloc; "misfit")?),
    }
}

fn found_name(alloc: Global, found: Option<Option<&Value>>) -> Result<String, Fail> {
    match found {
        Some(Some(part)) => {
            let text = shown(alloc, part)?;
            Ok(format!(in alloc; "= {text}")?)
        }
        Some(None) => Ok(format!(in alloc; "none")?),
        None => Ok(format!(in alloc; "misfit")?),
    }
}

// What `at` answers where `find` answers this.
fn at_name(expected: &str) -> &str {
    match expected.as_bytes() {
        b"outside" => "none",
        b"absent" => "none",
        _ => expected,
    }
}

fn is_found(alloc: Global, whole: &Value, index: &Value, expected: &str) -> Result<bool, Fail> {
    let found = step_name(alloc, find(whole, index))?;
    Ok(found.as_str() == expected)
}

fn is_at(alloc: Global, whole: &Value, index: &Value, expected: &str) -> Result<bool, Fail> {
    let found = found_name(alloc, read(whole, index))?;
    Ok(found.as_str() == at_name(expected))
}

// Whether an index leads where a row has it, and what is read there.
fn is_read_so(alloc: Global, words: &str, rest: &str) -> Result<bool, Fail> {
    let Some((index, expected)) = rest.split_once(" | ") else {
        return Ok(false);
    };
    let whole = value(alloc, words)?;
    let index = value(alloc, index)?;
    let is_found = is_found(alloc, whole.get(), index.get(), expected)?;
    Ok(is_found && is_at(alloc, whole.get(), index.get(), expected)?)
}

fn mode(name: &str) -> Option<Mode> {
    match name.as_bytes() {
        b"=" => Some(Mode::Set),
        b"+=" => Some(Mode::Add),
        b"-=" => Some(Mode::Sub),
        b"*=" => Some(Mode::Mul),
        _ => None,
    }
}

fn fault_name(fault: WriteFault) -> &'static str {
    match fault {
        WriteFault::Memory => "memory",
        WriteFault::Fail => "fail",
        WriteFault::Fault(Kind::Overflow) => "overflow",
        WriteFault::Fault(Kind::Size) => "size",
        WriteFault::Fault(_) => "another fault",
        WriteFault::Stuck => "stuck",
    }
}

fn write_slot(
    alloc: Global,
    slot: &mut Value,
    path: &Path,
    mode: Mode,
    value: Slot,
) -> Result<Slot, WriteFault> {
    match write(alloc, slot, path, mode, value.into_value()) {
        Ok(value) => Ok(Slot::new(value)),
        Err(fault) => Err(fault),
    }
}

// What a write comes to.
pub(crate) fn ending(
    alloc: Global,
    slot: &mut Value,
    path: &Path,
    mode: Mode,
    value: Slot,
) -> &'static str {
    match write_slot(alloc, slot, path, mode, value) {
        Ok(_) => "ok",
        Err(fault) => fault_name(fault),
    }
}

fn two_shown(alloc: Global, slot: &Value, value: &Value) -> Result<String, Fail> {
    let slot = shown(alloc, slot)?;
    let value = shown(alloc, value)?;
    Ok(format!(in alloc; "{slot}, {value}")?)
}

/// A place to be written, and how.
#[derive(Clone, Copy)]
struct Target<'a> {
    path: &'a Path,
    mode: Mode,
    words: &'a str,
}

fn written(alloc: Global, slot: &mut Value, target: &Target<'_>) -> Result<String, Fail> {
    let value = value(alloc, target.words)?;
    match write_slot(alloc, slot, target.path, target.mode, value) {
        Ok(value) => two_shown(alloc, slot, value.get()),
        Err(fault) => Ok(format!(in alloc; "{}", fault_name(fault))?),
    }
}

fn is_written(
    alloc: Global,
    slot: &mut Value,
    target: &Target<'_>,
    expected: &str,
) -> Result<bool, Fail> {
    let found = written(alloc, slot, target)?;
    Ok(found.as_str() == expected)
}

// Writes to the slot, and takes that back where it was not refused.
fn write_and_take_back(alloc: Global, slot: &mut Value, target: &Target<'_>, value: Slot) {
    let path = target.path;
    if let Ok(written) = write_logged(alloc, slot, path, target.mode, value.into_value()) {
        let Written { value, undo } = written;
        let _value = Slot::new(value);
        take_back(slot, path, undo);
    }
}

// Whether a write that is taken back, or refused, leaves the slot as it was.
fn is_taken_back(alloc: Global, slot: &mut Value, target: &Target<'_>) -> Result<bool, Fail> {
    let before = made(slot.copy(alloc))?;
    let value = value(alloc, target.words)?;
    write_and_take_back(alloc, slot, target, value);
    Ok(equal(slot, before.get()))
}

// Whether a write is taken back, and made again comes to what a row has.
fn is_target_written(
    alloc: Global,
    slot: &str,
    target: &Target<'_>,
    expected: &str,
) -> Result<bool, Fail> {
    let mut slot = value(alloc, slot)?;
    let is_taken_back = is_taken_back(alloc, slot.get_mut(), target)?;
    Ok(is_taken_back && is_written(alloc, slot.get_mut(), target, expected)?)
}

// A path, a mode and a value.
fn target_parts(text: &str) -> Option<(&str, Mode, &str)> {
    let (path, rest) = text.split_once(" | ")?;
    let (name, words) = rest.split_once(" | ")?;
    Some((path, mode(name)?, words))
}

fn is_written_so(alloc: Global, slot: &str, rest: &str) -> Result<bool, Fail> {
    let Some((target, expected)) = rest.rsplit_once(" | ") else {
        return Ok(false);
    };
    let Some((to, mode, words)) = target_parts(target) else {
        return Ok(false);
    };
    let path = path(alloc, to)?;
    let target = Target {
        path: &path,
        mode,
        words,
    };
    is_target_written(alloc, slot, &target, expected)
}

// Whether a write at one index changes the slot, and the changes in place make it what it was.
fn is_changed_back(alloc: Global, slot: &mut Value, index: Slot) -> Result<bool, Fail> {
    let before = made(slot.copy(alloc))?;
    let here = Path::new(alloc);
    let to = path_to(alloc, index.into_value())?;
    let written = write_logged(alloc, slot, &to, Mode::Set, Value::True)?;
    let Written { value, undo } = written;
    let _value = Slot::new(value);
    let is_changed = !equal(slot, before.get());
    change_back(slot, &to, &here, undo);
    Ok(is_changed && equal(slot, before.get()))
}

fn is_changed_so(alloc: Global, words: &str, index: &str) -> Result<bool, Fail> {
    let mut slot = value(alloc, words)?;
    let index = value(alloc, index)?;
    is_changed_back(alloc, slot.get_mut(), index)
}

/// What the rows of a table are about.
#[derive(Clone, Copy)]
enum About {
    Descriptions,
    Equality,
    Reads,
    Writes,
    Changes,
}

fn is_right(alloc: Global, about: About, row: &str) -> Result<bool, Fail> {
    let Some((first, rest)) = row.split_once(" | ") else {
        return Ok(false);
    };
    match about {
        About::Descriptions => is_described_so(alloc, first, rest),
        About::Equality => are_same(alloc, first, rest),
        About::Reads => is_read_so(alloc, first, rest),
        About::Writes => is_written_so(alloc, first, rest),
        About::Changes => is_changed_so(alloc, first, rest),
    }
}

// How many rows are as they are written; the first other one is a failure.
fn count_right(alloc: Global, about: About, rows: &str) -> Result<u64, Fail> {
    let mut count = 0u64;
    for row in rows.lines() {
        if !is_right(alloc, about, row)? {
            return Err(Fail::from(row));
        }
        count = count.saturating_add(1);
    }
    Ok(count)
}

#[test]
fn values_are_described(rt: HostRuntime) -> Result<(), Fail> {
    assert_eq!(rt; count_right(rt.alloc(), About::Descriptions, VALUES)?, 53);
    keys_are_values();
    Ok(())
}

#[test]
fn two_ways_make_one_value(rt: HostRuntime) -> Result<(), Fail> {
    assert_eq!(rt; count_right(rt.alloc(), About::Equality, SAME)?, 5);
    Ok(())
}

#[test]
fn parts_are_read(rt: HostRuntime) -> Result<(), Fail> {
    assert_eq!(rt; count_right(rt.alloc(), About::Reads, READS)?, 46);
    Ok(())
}

#[test]
fn places_are_written(rt: HostRuntime) -> Result<(), Fail> {
    assert_eq!(rt; count_right(rt.alloc(), About::Writes, WRITES)?, 64);
    Ok(())
}

#[test]
fn changes_are_undone_in_place(rt: HostRuntime) -> Result<(), Fail> {
    assert_eq!(rt; count_right(rt.alloc(), About::Changes, CHANGES)?, 3);
    Ok(())
}

fn all_values(alloc: Global) -> Result<Stack, Fail> {
    let mut all = Stack::new(Vec::new(alloc));
    for line in VALUES.lines() {
        if let Some((words, _)) = line.split_once(" | ") {
            all.push(value(alloc, words)?)?;
        }
    }
    Ok(all)
}

// How many are equal to a value.
fn count_equal(all: &[Value], value: &Value) -> u64 {
    let mut count = 0u64;
    for other in all {
        if equal(value, other) {
            count = count.saturating_add(1);
        }
    }
    count
}

// How many, from the first one on, are equal to their copies, which are equal to no other.
fn count_alone(all: &[Value], copies: &[Value]) -> u64 {
    let mut count = 0u64;
    for (one, copy) in all.iter().zip(copies.iter()) {
        if !equal(one, copy) || count_equal(all, copy) != 1 {
            return count;
        }
        count = count.saturating_add(1);
    }
    count
}

fn values_alone(alloc: Global) -> Result<u64, Fail> {
    let all = all_values(alloc)?;
    let copies = Stack::new(copy_all(alloc, all.as_slice())?);
    if copies.as_slice().len() != 53 {
        return Err(Fail::from("53 copies"));
    }
    Ok(count_alone(all.as_slice(), copies.as_slice()))
}

#[test]
fn values_are_equal_to_themselves_alone(rt: HostRuntime) -> Result<(), Fail> {
    assert_eq!(rt; values_alone(rt.alloc())?, 53);
    Ok(())
}
