//! Rows over cells and over both heaps.

ghost use Rattle.std.specs.Prelude.{◌≡◌, [], ◌∷◌, IfOk, IsSome, OnErr, pos};
ghost use Rattle.verse_value.specs.Store.{slot_of};
ghost use Rattle.verse_value.specs.Val as v;
ghost use Rattle.verse_value.specs.declared.runs.CellKind.TheVariants as kind;
ghost use Rattle.verse_cells.specs.Held.{store_of};
ghost use Rattle.tx_heap.specs.Copies.{state_of};

use crate::comparing::step;
use crate::handles::{Slot, int, made};
use crate::lists::{full, nested};
use std::alloc::Global;
use std::test::Fail;
use tx_heap::calls::Call;
use tx_heap::copy_heap::CopyHeap;
use tx_heap::heaps::Heap;
use tx_heap::undo_heap::UndoHeap;
use verse_base::refusals::{Kind, Memory};
use verse_cells::cells::Cells;
use verse_cells::slots::{Address, Change, Wanted};
use verse_value::equality::equal;
use verse_value::runs::CellKind;
use verse_value::values::Value;
use verse_value_writes::paths::Path;
use verse_value_writes::writes::{Mode, WriteFault};

/// A variable that holds 1, at the address 0.
fn one_variable(alloc: Global) -> Result<Cells, Memory>
    ensures { IfOk result (λ c. store_of c ≡
        record { kind = kind.Var; slots = v.int (pos 1) ∷ [] } ∷ []) }
{
    let mut cells = Cells::new(alloc);
    let mut slots = Vec::new(alloc);
    slots.push(Value::Int(1))?;
    cells.push(CellKind::Var, slots)?;
    Ok(cells)
}

fn is_int(value: &Value, n: i64) -> bool {
    equal(value, int(n).get())
}

fn is_int_given(value: Option<Value>, n: i64) -> bool {
    match value {
        Some(value) => is_int(Slot::new(value).get(), n),
        None => false,
    }
}

fn are_accesses_counted(cells: &mut Cells) -> bool
    requires { store_of cells.old ≡ record { kind = kind.Var; slots = v.int (pos 1) ∷ [] } ∷ [] }
{
    let is_variable = cells.len() == 1 && cells.kind(0) == CellKind::Var;
    let is_one = is_int(cells.get(0, 0), 1);
    let was_one = is_int_given(Some(cells.put(0, 0, Value::True)), 1);
    cells.pop();
    is_variable && is_one && was_one && cells.len() == 0 && cells.accesses() == 5
}

#[test]
fn each_access_counts(rt: HostRuntime) -> Result<(), Fail> {
    let mut cells = one_variable(rt.alloc())?;
    assert!(rt; are_accesses_counted(&mut cells));
    Ok(())
}

// whether the write of 3 in place of 1 is taken back
fn is_taken_back(alloc: Global, cells: &mut Cells) -> bool
    requires { store_of cells.old ≡ record { kind = kind.Var; slots = v.int (pos 1) ∷ [] } ∷ [] }
{
    let at = Address { cell: 0, slot: 0 };
    let path = Path::new(alloc);
    match cells.write(alloc, at, &path, Mode::Add, Value::Int(2), 0, Wanted::Copy) {
        Ok(change) => {
            let Change {
                value,
                undo,
                before: _,
                after,
            } = change;
            cells.take_back(at, &path, undo);
            is_int_given(value, 3) && after == 1 && cells.accesses() == 3
        }
        Err(_) => false,
    }
}

#[test]
fn a_write_is_taken_back(rt: HostRuntime) -> Result<(), Fail> {
    let mut cells = one_variable(rt.alloc())?;
    assert!(rt; is_taken_back(rt.alloc(), &mut cells));
    Ok(())
}

// writes what is heavier by one unit, where so much is spare
fn write_heavier(alloc: Global, cells: &mut Cells, spare: u64) -> Result<(), WriteFault>
    requires { IsSome (slot_of (store_of cells.old) 0 0) }
    ensures { OnErr result (store_of cells.new ≡ store_of cells.old) }
{
    let at = Address { cell: 0, slot: 0 };
    let path = Path::new(alloc);
    let heavy = made(Value::option(alloc, Value::True))?.into_value();
    match cells.write(alloc, at, &path, Mode::Set, heavy, spare, Wanted::Nothing) {
        Ok(_) => Ok(()),
        Err(fault) => Err(fault),
    }
}

fn is_grown_by_spare(alloc: Global, cells: &mut Cells) -> bool
    requires { store_of cells.old ≡ record { kind = kind.Var; slots = v.int (pos 1) ∷ [] } ∷ [] }
{
    let refused = write_heavier(alloc, cells, 0);
    if !matches!(refused, Err(WriteFault::Fault(Kind::Store))) {
        return false;
    }
    is_int(cells.get(0, 0), 1) && write_heavier(alloc, cells, 1).is_ok()
}

#[test]
fn a_slot_grows_by_what_is_spare(rt: HostRuntime) -> Result<(), Fail> {
    let mut cells = one_variable(rt.alloc())?;
    assert!(rt; is_grown_by_spare(rt.alloc(), &mut cells));
    Ok(())
}

// makes calls on both, and answers whether the cells were the same behind each
fn are_same_behind_each<H: Heap>(
    alloc: Global,
    copies: &mut CopyHeap,
    heap: &mut H,
    calls: &[Call],
) -> Result<bool, Memory>
    requires { H.state heap.old ≡ state_of copies.old }
{
    let mut are_same = true;
    'calls: for call in calls {
        are_same = step(alloc, copies, heap, call)? && are_same;
    }
    Ok(are_same)
}

fn is_nesting_undone(alloc: Global) -> Result<bool, Memory> {
    let calls = nested(alloc)?;
    let mut copies = CopyHeap::new(alloc);
    let mut heap = UndoHeap::new(alloc);
    let are_same = are_same_behind_each(alloc, &mut copies, &mut heap, calls.as_slice())?;
    Ok(are_same && heap.len() == 3 && heap.depth() == 0 && heap.weight() == 10)
}

#[test]
fn both_heaps_are_alike(rt: HostRuntime) -> Result<(), Fail> {
    assert!(rt; is_nesting_undone(rt.alloc())?);
    Ok(())
}

fn is_full_refused(alloc: Global) -> Result<bool, Memory> {
    let calls = full(alloc)?;
    let mut copies = CopyHeap::new(alloc);
    let mut heap = UndoHeap::new(alloc);
    let are_same = are_same_behind_each(alloc, &mut copies, &mut heap, calls.as_slice())?;
    Ok(are_same && heap.len() == 5 && heap.weight() == 16000000 && !heap.has_room(&[]))
}

#[test]
fn a_full_store_refuses(rt: HostRuntime) -> Result<(), Fail> {
    assert!(rt; is_full_refused(rt.alloc())?);
    Ok(())
}

#[test]
fn undoing_costs_what_was_changed(rt: HostRuntime) -> Result<(), Fail> {
    let mut heap = UndoHeap::new(rt.alloc());
    let mut slots = Vec::new(rt.alloc());
    slots.push(Value::Int(0))?;
    heap.alloc_cell(CellKind::Var, slots)?;
    let before_mark = heap.accesses();
    heap.mark()?;
    assert!(rt; heap.accesses() == before_mark);
    heap.set(0, 0, Value::Int(1))?;
    heap.set(0, 0, Value::Int(2))?;
    heap.set(0, 0, Value::Int(3))?;
    heap.alloc_cell(CellKind::Event, Vec::new(rt.alloc()))?;
    assert!(rt; heap.len() == 2);
    let before = heap.accesses();
    heap.rollback();
    assert!(rt; heap.accesses() <= before.saturating_add(7));
    assert!(rt; heap.len() == 1);
    assert!(rt; is_int(heap.get(0, 0), 0));
    Ok(())
}

#[test]
fn a_store_hands_nothing_back(rt: HostRuntime) -> Result<(), Fail> {
    let alloc = rt.alloc();
    let mut heap = UndoHeap::new(alloc);
    let mut slots = Vec::new(alloc);
    slots.push(Value::Int(1))?;
    assert!(rt; heap.has_room(slots.as_slice()));
    heap.alloc_cell(CellKind::Var, slots)?;
    let path = Path::new(alloc);
    assert!(rt; heap.store(0, 0, &path, Mode::Add, Value::Int(2)).is_ok());
    assert!(rt; is_int(heap.get(0, 0), 3));
    assert!(rt; heap.write(0, 0, &path, Mode::Sub, Value::Int(1)).is_ok());
    assert!(rt; is_int(heap.get(0, 0), 2));
    let stuck = heap.store(0, 0, &path, Mode::Add, Value::Unit);
    assert!(rt; matches!(&stuck, Err(WriteFault::Stuck)));
    Ok(())
}
