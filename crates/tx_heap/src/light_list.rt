//! Cells whose weight in all is bounded.

ghost use Rattle.std.specs.Prelude.{◌≡◌, ◌<◌, ◌+◌, ◌≤◌, [], length, IsSome, None, Some};
ghost use Rattle.std.specs.Prelude.{MatchOption, Ok, IfOk, IfErr, OnOk, OnErr, slice_get};
ghost use Rattle.std.specs.Prelude.{IfSome, OnSome, IfNone, option_map};
ghost use Rattle.verse_value.specs.Val.{int};
ghost use Rattle.verse_value.specs.View.{val_of, vals_of};
ghost use Rattle.verse_value.specs.Store as store;
ghost use Rattle.verse_value.specs.Store.{slot_of, stored, with_cell, store_weight};
ghost use Rattle.verse_value.specs.declared.sizes.TheConstants.{MOST_STORE_WEIGHT};
ghost use Rattle.verse_value_writes.specs.Writes.{Explains};
ghost use Rattle.verse_cells.specs.View.{cells_of};
ghost use Rattle.verse_cells.specs.Changes.{HoldsNoInt};
ghost use Rattle.tx_heap.specs.State.{new_cell, IsLight};
ghost use Rattle.tx_heap.specs.Outcomes.{cells_written, Lands};

use std::alloc::Global;
use std::marker::Model;
use verse_base::refusals::Memory;
use verse_cells::lists::Slots;
use verse_cells::slots::{
    Address, Cell, Wanted, copy_cells, find_slot, int_at, put, put_int, slot_at, write_at,
};
use verse_value::runs::CellKind;
use verse_value::sizes::{MOST_STORE_WEIGHT, cell_weight, weight};
use verse_value::values::Value;
use verse_value_writes::paths::Path;
use verse_value_writes::writes::{Mode, WriteFault};

/// Cells with the sum of their weights, which is at most 16000000.
#[derive(Drop)]
pub struct LightList {
    cells: Vec<Cell>,
    weight: u64,
}

impl Model for LightList {
    ghost use Rattle.std.specs.Prelude.{List};
    ghost use Rattle.std.specs.Coded.{coded_list};
    ghost use Rattle.verse_cells.specs.declared.slots.Cell.{Cell as C};
    ghost use Rattle.verse_cells.specs.contracts.slots.Cell as c;
    ghost use Rattle.verse_cells.specs.View.{cells_of};
    ghost use Rattle.tx_heap.specs.Weighed.{IsWeighed};

    ghost Value = { List C };

    ghost coded = { coded_list c.the_row.coded };

    ghost view = { λ w. w.cells.items };

    ghost invariant = { λ w. IsWeighed w.weight (cells_of w.cells.items) };
}

impl LightList {
    /// No cells. Takes no memory.
    pub fn new(alloc: Global) -> LightList
        ensures { result ≡ [] }
    {
        LightList {
            cells: Vec::new(alloc),
            weight: 0,
        }
    }

    /// How many cells there are.
    pub fn len(&self) -> u32
        ensures { result ≡ length (cells_of self.now) }
    {
        self.cells.len() as u32
    }

    /// The sum of the weights.
    pub fn weight(&self) -> u64
        ensures sum { result ≡ store_weight (cells_of self.now) }
        ensures light { IsLight (cells_of self.now) }
    {
        self.weight
    }

    /// What a slot holds. The cell and the slot are there.
    pub fn get(&self, cell: u32, slot: u32) -> &Value
        requires { IsSome (slot_of (cells_of self.now) cell slot) }
        ensures { slot_of (cells_of self.now) cell slot ≡ Some (val_of result.now) }
    {
        slot_at(self.cells.as_slice(), cell, slot)
    }

    /// What a slot holds, where the cell and the slot are there.
    pub fn find(&self, cell: u32, slot: u32) -> Option<&Value>
        ensures { MatchOption result (slot_of (cells_of self.now) cell slot ≡ None)
            (λ v. slot_of (cells_of self.now) cell slot ≡ Some (val_of v.now)) }
    {
        find_slot(self.cells.as_slice(), cell, slot)
    }

    /// The int that a slot holds; None where it holds none, or is not there.
    pub fn int_at(&self, cell: u32, slot: u32) -> Option<i64>
        ensures some { IfSome result (λ n. slot_of (cells_of self.now) cell slot ≡ Some (int n)) }
        ensures none { IfNone result (HoldsNoInt (slot_of (cells_of self.now) cell slot)) }
    {
        int_at(self.cells.as_slice(), cell, slot)
    }

    /// What a cell is. It is there.
    pub fn kind(&self, cell: u32) -> CellKind
        requires { cell < length (cells_of self.now) }
        ensures { option_map (λ (c : store.Cell). c.kind) (slice_get (cells_of self.now) cell) ≡
            Some result }
    {
        self.cells[cell as usize].kind
    }

    /// Adds a cell, and answers its address.
    pub fn push(&mut self, kind: CellKind, slots: Vec<Value>) -> Result<u32, Memory>
        requires fewer { length (cells_of self.old) < 4294967295 }
        requires light { IsLight (with_cell (cells_of self.old)
            (new_cell kind (vals_of slots.items))) }
        ensures address { IfOk result (λ n. n ≡ length (cells_of self.old)) }
        ensures ok { OnOk result (cells_of self.new ≡
            with_cell (cells_of self.old) (new_cell kind (vals_of slots.items))) }
        ensures err { OnErr result (cells_of self.new ≡ cells_of self.old) }
    {
        let more = cell_weight(slots.as_slice());
        let address = self.cells.len() as u32;
        self.cells.push(Cell {
            kind,
            slots: Slots::from_vec(slots),
        })?;
        self.weight += more;
        Ok(address)
    }

    /// Puts a value in a slot. The cell and the slot are there. Takes no memory.
    pub fn put(&mut self, cell: u32, slot: u32, value: Value)
        requires there { IsSome (slot_of (cells_of self.old) cell slot) }
        requires light { IsLight (stored (cells_of self.old) cell slot (val_of value)) }
        ensures { cells_of self.new ≡ stored (cells_of self.old) cell slot (val_of value) }
    {
        let after = weight(&value);
        let old = put(self.cells.as_mut_slice(), cell, slot, value);
        self.weight = reweighed(self.weight, weight(&old), after);
    }

    /// Puts an int in a slot that holds one, and answers the one that it held. None, and nothing is
    /// changed, where it holds none, or is not there. Takes no memory.
    pub fn put_int(&mut self, cell: u32, slot: u32, n: i64) -> Option<i64>
        ensures old { IfSome result (λ m. slot_of (cells_of self.old) cell slot ≡ Some (int m)) }
        ensures new { OnSome result (cells_of self.new ≡
            stored (cells_of self.old) cell slot (int n)) }
        ensures none { IfNone result (HoldsNoInt (slot_of (cells_of self.old) cell slot)) }
        ensures same { IfNone result (cells_of self.new ≡ cells_of self.old) }
    {
        put_int(self.cells.as_mut_slice(), cell, slot, n)
    }

    /// Writes at a path in a slot, where the sum stays within its limit, and hands back what is
    /// wanted of the value written.
    pub fn write(
        &mut self,
        alloc: Global,
        at: Address,
        path: &Path,
        mode: Mode,
        value: Value,
        wanted: Wanted,
    ) -> Result<Option<Value>, WriteFault>
        requires { IsSome (slot_of (cells_of self.old) at.cell at.slot) }
        ensures ok { IfOk result (Lands wanted
            (cells_written (cells_of self.old) at.cell at.slot (vals_of path.now) mode
            (val_of value)) (cells_of self.new)) }
        ensures fault { IfErr result
            (Explains (cells_written (cells_of self.old) at.cell at.slot (vals_of path.now) mode
            (val_of value))) }
        ensures same { OnErr result (cells_of self.new ≡ cells_of self.old) }
    {
        let spare = MOST_STORE_WEIGHT - self.weight;
        let change = write_at(
            alloc,
            self.cells.as_mut_slice(),
            at,
            path,
            mode,
            value,
            spare,
            wanted,
        )?;
        self.weight = reweighed(self.weight, change.before, change.after);
        Ok(change.value)
    }

    /// Cells equal to these.
    pub fn copy(&self, alloc: Global) -> Result<LightList, Memory>
        ensures { IfOk result (λ copy. cells_of copy ≡ cells_of self.now) }
    {
        let cells = copy_cells(alloc, self.cells.as_slice())?;
        Ok(LightList {
            cells,
            weight: self.weight,
        })
    }
}

/// The sum where one part of it changes its weight.
pub(crate) fn reweighed(sum: u64, before: u64, after: u64) -> u64
    requires within { before ≤ sum }
    requires light { sum + after ≤ MOST_STORE_WEIGHT + before }
    ensures { result + before ≡ sum + after }
{
    sum - before + after
}
