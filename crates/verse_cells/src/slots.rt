//! What stands in a slot of a cell, and writes in it.

ghost use Rattle.std.specs.Prelude.{◌≡◌, ◌<◌, Ok, length, IsSome, None, Some, MatchOption, IfOk};
ghost use Rattle.std.specs.Prelude.{IfErr, OnErr, IfSome, OnSome, IfNone, slice_get, slice_set};
ghost use Rattle.verse_value.specs.View.{val_of, vals_of};
ghost use Rattle.verse_value.specs.Store.{slot_of, stored};
ghost use Rattle.verse_value.specs.Val.{Val, int};
ghost use Rattle.verse_value_writes.specs.Writes.{written, undone, CanUndo, Explains};
ghost use Rattle.verse_cells.specs.View.{cells_of};
ghost use Rattle.verse_cells.specs.Changes.{IsWanted, spared, slot_written, IsWrite, IsUndone};
ghost use Rattle.verse_cells.specs.Changes.{InSlot, InCell, CanUndoIn, HoldsNoInt};

use crate::lists::Slots;
use std::alloc::Global;
use std::mem;
use verse_base::refusals::{Kind, Memory};
use verse_value::runs::CellKind;
use verse_value::sizes::weight;
use verse_value::values::{Value, copy_all};
use verse_value_writes::paths::Path;
use verse_value_writes::writes::{
    self, Mode, Undo, WriteFault, Written, store_logged, write_logged,
};

/// A cell of a store: what it is, and what its slots hold.
#[derive(Drop)]
pub struct Cell {
    pub kind: CellKind,
    pub slots: Slots<Value>,
}

/// Which slot of which cell.
#[derive(Clone, Copy, Debug, PartialEq, Eq)]
pub struct Address {
    pub cell: u32,
    pub slot: u32,
}

/// What a write hands back of the value written.
#[derive(Clone, Copy, Debug, PartialEq, Eq)]
pub enum Wanted {
    Copy,
    Nothing,
}

/// What a write in a slot came to.
#[derive(Drop)]
pub struct Change {
    /// A copy of the value written, where one is wanted.
    pub value: Option<Value>,
    /// What undoes the write at the same path.
    pub undo: Undo,
    /// What the slot weighed before the write.
    pub before: u64,
    /// What the slot weighs after it.
    pub after: u64,
}

/// What a slot holds. The cell and the slot are there.
pub fn slot_at(cells: &[Cell], cell: u32, slot: u32) -> &Value
    requires { IsSome (slot_of (cells_of cells.now) cell slot) }
    ensures { slot_of (cells_of cells.now) cell slot ≡ Some (val_of result.now) }
{
    &cells[cell as usize].slots.as_slice()[slot as usize]
}

/// What a slot holds, where the cell and the slot are there.
pub fn find_slot(cells: &[Cell], cell: u32, slot: u32) -> Option<&Value>
    ensures { MatchOption result (slot_of (cells_of cells.now) cell slot ≡ None)
        (λ v. slot_of (cells_of cells.now) cell slot ≡ Some (val_of v.now)) }
{
    match cells.get(cell as usize) {
        Some(cell) => cell.slots.as_slice().get(slot as usize),
        None => None,
    }
}

/// Puts a value in a slot, and answers the one that it held. The cell and the slot are there. Takes
/// no memory.
pub fn put(cells: &mut [Cell], cell: u32, slot: u32, value: Value) -> Value
    requires { IsSome (slot_of (cells_of cells.old) cell slot) }
    ensures old { slot_of (cells_of cells.old) cell slot ≡ Some (val_of result) }
    ensures new { cells_of cells.new ≡ stored (cells_of cells.old) cell slot (val_of value) }
{
    put_part(&mut cells[cell as usize].slots, slot, value)
}

/// The int that a slot holds; None where it holds none, or is not there.
pub fn int_at(cells: &[Cell], cell: u32, slot: u32) -> Option<i64>
    ensures some { IfSome result (λ n. slot_of (cells_of cells.now) cell slot ≡ Some (int n)) }
    ensures none { IfNone result (HoldsNoInt (slot_of (cells_of cells.now) cell slot)) }
{
    match find_slot(cells, cell, slot) {
        Some(Value::Int(n)) => Some(*n),
        _ => None,
    }
}

/// Puts an int in a slot that holds one, and answers the one that it held. None, and nothing is
/// changed, where it holds none, or is not there. Takes no memory.
pub fn put_int(cells: &mut [Cell], cell: u32, slot: u32, n: i64) -> Option<i64>
    ensures old { IfSome result (λ m. slot_of (cells_of cells.old) cell slot ≡ Some (int m)) }
    ensures new { OnSome result (cells_of cells.new ≡
        stored (cells_of cells.old) cell slot (int n)) }
    ensures none { IfNone result (HoldsNoInt (slot_of (cells_of cells.old) cell slot)) }
    ensures same { IfNone result (cells_of cells.new ≡ cells_of cells.old) }
{
    let old = int_at(cells, cell, slot)?;
    let _ = put(cells, cell, slot, Value::Int(n));
    Some(old)
}

fn put_part(slots: &mut Slots<Value>, slot: u32, value: Value) -> Value
    requires { slot < length slots.old }
    ensures old { slice_get (vals_of slots.old) slot ≡ Some (val_of result) }
    ensures new { vals_of slots.new ≡ slice_set (vals_of slots.old) slot (val_of value) }
{
    mem::replace(slots.part_mut(slot as usize), value)
}

/// Writes at a path in a slot, as `verse_value_writes::writes::write_logged` does, or, where no
/// copy of the value written is wanted, as `store_logged`. The cell and the slot are there.
///
/// The refusals are those of that call, and then `Fault(Kind::Store)` where the slot would weigh
/// more than `spare` above what it weighs. After each refusal the cells are unchanged.
pub fn write_at(
    alloc: Global,
    cells: &mut [Cell],
    at: Address,
    path: &Path,
    mode: Mode,
    value: Value,
    spare: u64,
    wanted: Wanted,
) -> Result<Change, WriteFault>
    requires { IsSome (slot_of (cells_of cells.old) at.cell at.slot) }
    ensures ok { IfOk result (λ c.
        InCell at.cell at.slot (IsWrite spare (vals_of path.now) mode (val_of value) wanted c)
        (cells_of cells.old) (cells_of cells.new)) }
    ensures fault { IfErr result
        (Explains (slot_written spare (vals_of path.now) mode (val_of value)
        (slot_of (cells_of cells.old) at.cell at.slot))) }
    ensures same { OnErr result (cells_of cells.new ≡ cells_of cells.old) }
{
    let slots = &mut cells[at.cell as usize].slots;
    write_part(alloc, slots, at.slot, path, mode, value, spare, wanted)
}

fn write_part(
    alloc: Global,
    slots: &mut Slots<Value>,
    slot: u32,
    path: &Path,
    mode: Mode,
    value: Value,
    spare: u64,
    wanted: Wanted,
) -> Result<Change, WriteFault>
    requires { slot < length slots.old }
    ensures ok { IfOk result (λ c.
        InSlot slot (IsWrite spare (vals_of path.now) mode (val_of value) wanted c)
        (vals_of slots.old) (vals_of slots.new)) }
    ensures fault { IfErr result
        (Explains (slot_written spare (vals_of path.now) mode (val_of value)
        (slice_get (vals_of slots.old) slot))) }
    ensures same { OnErr result (vals_of slots.new ≡ vals_of slots.old) }
{
    write_value(
        alloc,
        slots.part_mut(slot as usize),
        path,
        mode,
        value,
        spare,
        wanted,
    )
}

fn write_value(
    alloc: Global,
    slot: &mut Value,
    path: &Path,
    mode: Mode,
    value: Value,
    spare: u64,
    wanted: Wanted,
) -> Result<Change, WriteFault>
    ensures ok { IfOk result (λ c. IsWrite spare (vals_of path.now) mode (val_of value) wanted c
        (val_of slot.old) (val_of slot.new)) }
    ensures fault { IfErr result
        (Explains (spared spare (val_of slot.old)
        (written (vals_of path.now) mode (val_of value) (val_of slot.old)))) }
    ensures same { OnErr result (val_of slot.new ≡ val_of slot.old) }
{
    let before = weight(slot);
    let (value, undo) = write_wanted(alloc, slot, path, mode, value, wanted)?;
    let after = weight(slot);
    if after <= before.saturating_add(spare) {
        return Ok(Change {
            value,
            undo,
            before,
            after,
        });
    }
    writes::take_back(slot, path, undo);
    Err(WriteFault::Fault(Kind::Store))
}

/// Writes, with a copy of the value written where one is wanted.
fn write_wanted(
    alloc: Global,
    slot: &mut Value,
    path: &Path,
    mode: Mode,
    value: Value,
    wanted: Wanted,
) -> Result<(Option<Value>, Undo), WriteFault>
    ensures ok { IfOk result (λ r. (v : Val) ×
        (written (vals_of path.now) mode (val_of value) (val_of slot.old) ≡
        Ok (val_of slot.new, v)) × IsWanted wanted r.0 v) }
    ensures fault { IfErr result
        (Explains (written (vals_of path.now) mode (val_of value) (val_of slot.old))) }
    ensures same { OnErr result (val_of slot.new ≡ val_of slot.old) }
    ensures can_undo { IfOk result (λ r. CanUndo (vals_of path.now) r.1 (val_of slot.new)) }
    ensures undo { IfOk result (λ r. undone (vals_of path.now) r.1 (val_of slot.new) ≡
        val_of slot.old) }
{
    match wanted {
        Wanted::Copy => {
            let Written { value, undo } = write_logged(alloc, slot, path, mode, value)?;
            Ok((Some(value), undo))
        }
        Wanted::Nothing => {
            let undo = store_logged(alloc, slot, path, mode, value)?;
            Ok((None, undo))
        }
    }
}

/// Undoes a write at the path in the slot where it was made. Takes no memory.
pub fn take_back(cells: &mut [Cell], at: Address, path: &Path, undo: Undo)
    requires { CanUndoIn (vals_of path.now) undo (slot_of (cells_of cells.old) at.cell at.slot) }
    ensures { InCell at.cell at.slot (IsUndone (vals_of path.now) undo) (cells_of cells.old)
        (cells_of cells.new) }
{
    take_back_part(&mut cells[at.cell as usize].slots, at.slot, path, undo);
}

fn take_back_part(slots: &mut Slots<Value>, slot: u32, path: &Path, undo: Undo)
    requires { CanUndoIn (vals_of path.now) undo (slice_get (vals_of slots.old) slot) }
    ensures { InSlot slot (IsUndone (vals_of path.now) undo) (vals_of slots.old)
        (vals_of slots.new) }
{
    writes::take_back(slots.part_mut(slot as usize), path, undo);
}

/// Cells equal to these.
pub fn copy_cells(alloc: Global, cells: &[Cell]) -> Result<Vec<Cell>, Memory>
    ensures { IfOk result (λ copies. cells_of copies.items ≡ cells_of cells.now) }
{
    let mut copies = Vec::new(alloc);
    'cells: for cell in cells {
        let slots = copy_all(alloc, cell.slots.as_slice())?;
        copies.push(Cell {
            kind: cell.kind,
            slots: Slots::from_vec(slots),
        })?;
    }
    Ok(copies)
}
