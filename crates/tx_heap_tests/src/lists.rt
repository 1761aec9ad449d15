//! Lists of calls.

use crate::handles::{Calls, Row, Slot, int, made};
use std::alloc::Global;
use tx_heap::calls::Call;
use verse_base::refusals::Memory;
use verse_value::bytes::Bytes;
use verse_value::keys::Key;
use verse_value::runs::CellKind;
use verse_value::values::{Entries, Value};
use verse_value_writes::paths::Path;
use verse_value_writes::writes::Mode;

/// Adds a variable.
fn variable(alloc: Global, calls: &mut Calls, slot: Slot) -> Result<(), Memory> {
    let mut row = Row::new(alloc);
    row.push(slot)?;
    calls.add_cell(CellKind::Var, row)
}

/// Adds an event.
fn event(alloc: Global, calls: &mut Calls) -> Result<(), Memory> {
    calls.add_cell(CellKind::Event, Row::new(alloc))
}

/// Sets the first slot of a cell to an int.
fn set(calls: &mut Calls, cell: u32, n: i64) -> Result<(), Memory> {
    calls.add(Call::Set(cell, 0, Value::Int(n)))
}

fn path_to(alloc: Global, index: i64) -> Result<Path, Memory> {
    let mut path = Path::new(alloc);
    path.push(Value::Int(index))?;
    Ok(path)
}

/// An index, a mode and an int.
#[derive(Clone, Copy)]
struct Target(i64, Mode, i64);

/// Writes an int where an index leads in the first slot of a cell.
fn write(alloc: Global, calls: &mut Calls, cell: u32, target: Target) -> Result<(), Memory> {
    let Target(index, mode, n) = target;
    let path = path_to(alloc, index)?;
    calls.add(Call::Write(cell, 0, path, mode, Value::Int(n)))
}

/// Adds an element at the end of the array in the first slot of a cell.
fn append(alloc: Global, calls: &mut Calls, cell: u32, n: i64) -> Result<(), Memory> {
    let more = ints(alloc, n, 1)?;
    calls.add(Call::Write(cell, 0, Path::new(alloc), Mode::Add, more.into_value()))
}

/// An array of so many ints, all of them this one.
fn ints(alloc: Global, n: i64, count: u32) -> Result<Slot, Memory> {
    let mut row = Row::new(alloc);
    'items: for _i in 0..count {
        row.push(int(n))?;
    }
    made(Value::array(alloc, row.into_vec()))
}

fn map_of_one(alloc: Global, key: Key, slot: Slot) -> Result<Slot, Memory> {
    let mut entries = Entries::new(alloc);
    entries.insert(key, slot.into_value())?;
    made(Value::map(alloc, entries))
}

/// A map with one key, an int.
fn one_key(alloc: Global, key: i64, n: i64) -> Result<Slot, Memory> {
    map_of_one(alloc, Key::Int(key), int(n))
}

fn three_variables(alloc: Global, calls: &mut Calls) -> Result<(), Memory> {
    variable(alloc, calls, int(4))?;
    variable(alloc, calls, ints(alloc, 5, 2)?)?;
    variable(alloc, calls, one_key(alloc, 1, 2)?)
}

fn under_two_marks(alloc: Global, calls: &mut Calls) -> Result<(), Memory> {
    calls.add(Call::Mark)?;
    write(alloc, calls, 1, Target(1, Mode::Add, 10))?;
    calls.add(Call::Mark)?;
    set(calls, 0, 7)?;
    append(alloc, calls, 1, 6)?;
    write(alloc, calls, 2, Target(9, Mode::Set, 3))
}

fn under_a_third_mark(alloc: Global, calls: &mut Calls) -> Result<(), Memory> {
    calls.add(Call::Mark)?;
    variable(alloc, calls, int(9))?;
    event(alloc, calls)?;
    write(alloc, calls, 1, Target(0, Mode::Sub, 1))?;
    calls.add(Call::Commit)
}

// the first of them may not be made, and the second is refused
fn undone(alloc: Global, calls: &mut Calls) -> Result<(), Memory> {
    set(calls, 9, 1)?;
    write(alloc, calls, 1, Target(7, Mode::Set, 1))?;
    calls.add(Call::Rollback)?;
    set(calls, 0, 8)?;
    calls.add(Call::Rollback)?;
    calls.add(Call::Commit)
}

/// Changes under three nested marks, all of them undone at the end.
pub(crate) fn nested(alloc: Global) -> Result<Calls, Memory> {
    let mut calls = Calls::new(alloc);
    three_variables(alloc, &mut calls)?;
    under_two_marks(alloc, &mut calls)?;
    under_a_third_mark(alloc, &mut calls)?;
    undone(alloc, &mut calls)?;
    Ok(calls)
}

fn letters(alloc: Global, count: u32) -> Result<Vec<u8>, Memory> {
    let mut bytes = Vec::new(alloc);
    bytes.resize(count as usize, 97)?;
    Ok(bytes)
}

/// A variable with a map of this weight, from 3 on: a text of so many bytes with unit.
fn long_key(alloc: Global, calls: &mut Calls, weight: u32) -> Result<(), Memory> {
    let text = letters(alloc, weight.saturating_sub(3))?;
    let key = Key::Text(Bytes::from_vec(text));
    let map = map_of_one(alloc, key, Slot::new(Value::Unit))?;
    variable(alloc, calls, map)
}

fn add_heavier(alloc: Global, calls: &mut Calls) -> Result<(), Memory> {
    let heavier = made(Value::option(alloc, Value::True))?;
    let path = Path::new(alloc);
    calls.add(Call::Write(0, 0, path, Mode::Set, heavier.into_value()))
}

fn add_four_heavy(alloc: Global, calls: &mut Calls) -> Result<(), Memory> {
    'cells: for _i in 0..3 {
        long_key(alloc, calls, 3999999)?;
    }
    long_key(alloc, calls, 3999997)
}

/// Cells that weigh 16000000 in all; then a write that would make one heavier, and one more cell.
pub(crate) fn full(alloc: Global) -> Result<Calls, Memory> {
    let mut calls = Calls::new(alloc);
    variable(alloc, &mut calls, int(1))?;
    add_four_heavy(alloc, &mut calls)?;
    add_heavier(alloc, &mut calls)?;
    event(alloc, &mut calls)?;
    Ok(calls)
}
