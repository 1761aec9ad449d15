//! The cells of a store, whose accesses are counted.

ghost use Rattle.std.specs.Prelude.{◌≡◌, ◌<◌, ◌≤◌, [], length, IsSome, Some, IfOk, IfErr, OnOk};
ghost use Rattle.std.specs.Prelude.{OnErr, IfSome, OnSome, IfNone, slice_get, option_map};
ghost use Rattle.std.specs.Borrow.{sem};
ghost use Rattle.verse_value.specs.Val.{int};
ghost use Rattle.verse_value.specs.View.{val_of, vals_of};
ghost use Rattle.verse_value.specs.Store as store;
ghost use Rattle.verse_value.specs.Store.{slot_of, stored, with_cell};
ghost use Rattle.verse_value_writes.specs.Writes.{Explains};
ghost use Rattle.verse_cells.specs.View.{cell_of};
ghost use Rattle.verse_cells.specs.Held.{store_of, counted, touched};
ghost use Rattle.verse_cells.specs.Changes.{slot_written, IsWrite, IsUndone, InCell, CanUndoIn};
ghost use Rattle.verse_cells.specs.Changes.{HoldsNoInt, without_last};
ghost use Rattle.verse_cells.specs.Rests.{RestsTouched};

use crate::lists::Slots;
use crate::slots::{self, Address, Cell, Change, Wanted, slot_at, write_at};
use std::alloc::Global;
use std::marker::Model;
use verse_base::refusals::Memory;
use verse_value::runs::CellKind;
use verse_value::values::Value;
use verse_value_writes::paths::Path;
use verse_value_writes::writes::{Mode, Undo, WriteFault};

/// Cells by address from 0, and how often one of them was accessed. The count stands at
/// 18446744073709551615.
#[derive(Drop)]
pub struct Cells {
    cells: Vec<Cell>,
    accesses: u64,
}

impl Model for Cells {
    ghost use Rattle.std.specs.Prelude.{◌≤◌, length};
    ghost use Rattle.std.specs.Coded.{codes};
    ghost use Rattle.verse_cells.specs.Held.{Held};
    ghost use Rattle.verse_cells.specs.contracts.slots.Cell as c;

    ghost Value = { Held };

    ghost coded = { Prim.hlevel (codes, c.the_row.coded) };

    ghost view = { λ c. record { cells = c.cells.items; accesses = c.accesses } };

    ghost invariant = { λ c. length c.cells.items ≤ 4294967295 };
}

impl Cells {
    /// No cells, and no access. Takes no memory.
    pub fn new(alloc: Global) -> Cells
        ensures { result ≡ record { cells = []; accesses = 0 } }
    {
        Cells {
            cells: Vec::new(alloc),
            accesses: 0,
        }
    }

    /// How many cells there are.
    pub fn len(&self) -> u32
        ensures { result ≡ length (store_of self.now) }
    {
        self.cells.len() as u32
    }

    /// How often a cell was accessed.
    pub fn accesses(&self) -> u64
        ensures { result ≡ self.now.accesses }
    {
        self.accesses
    }

    /// What a slot holds. The cell and the slot are there. Counts one access and takes no memory.
    pub fn get(&mut self, cell: u32, slot: u32) -> &Value
        requires { IsSome (slot_of (store_of self.old) cell slot) }
        ensures value { slot_of (store_of self.old) cell slot ≡ Some (val_of result.now) }
        ensures* same { sem 𝓛 (RestsTouched self.entry) }
    {
        self.count();
        slot_at(self.cells.as_slice(), cell, slot)
    }

    /// What a cell is. It is there. Counts one access and takes no memory.
    pub fn kind(&mut self, cell: u32) -> CellKind
        requires { cell < length (store_of self.old) }
        ensures kind { option_map (λ (c : store.Cell). c.kind)
            (slice_get (store_of self.old) cell) ≡ Some result }
        ensures same { self.new ≡ touched self.old }
    {
        self.count();
        self.cells[cell as usize].kind
    }

    /// Puts a value in a slot, and answers the one that it held. The cell and the slot are there.
    /// Counts one access and takes no memory.
    pub fn put(&mut self, cell: u32, slot: u32, value: Value) -> Value
        requires { IsSome (slot_of (store_of self.old) cell slot) }
        ensures old { slot_of (store_of self.old) cell slot ≡ Some (val_of result) }
        ensures new { store_of self.new ≡ stored (store_of self.old) cell slot (val_of value) }
        ensures count { self.new.accesses ≡ counted self.old.accesses }
    {
        self.count();
        slots::put(self.cells.as_mut_slice(), cell, slot, value)
    }

    /// The int that a slot holds; None where it holds none, or is not there. Counts one access and
    /// takes no memory.
    pub fn int_at(&mut self, cell: u32, slot: u32) -> Option<i64>
        ensures some { IfSome result (λ n. slot_of (store_of self.old) cell slot ≡ Some (int n)) }
        ensures none { IfNone result (HoldsNoInt (slot_of (store_of self.old) cell slot)) }
        ensures same { self.new ≡ touched self.old }
    {
        self.count();
        slots::int_at(self.cells.as_slice(), cell, slot)
    }

    /// Puts an int in a slot that holds one, and answers the one that it held. None, and the cells
    /// are unchanged, where it holds none, or is not there. Counts one access and takes no memory.
    pub fn put_int(&mut self, cell: u32, slot: u32, n: i64) -> Option<i64>
        ensures old { IfSome result (λ m. slot_of (store_of self.old) cell slot ≡ Some (int m)) }
        ensures new { OnSome result (store_of self.new ≡
            stored (store_of self.old) cell slot (int n)) }
        ensures none { IfNone result (HoldsNoInt (slot_of (store_of self.old) cell slot)) }
        ensures same { IfNone result (store_of self.new ≡ store_of self.old) }
        ensures count { self.new.accesses ≡ counted self.old.accesses }
    {
        self.count();
        slots::put_int(self.cells.as_mut_slice(), cell, slot, n)
    }

    /// Writes at a path in a slot, which may grow by at most `spare` units of weight, as `write_at`
    /// does. The cell and the slot are there. Counts one access, also where the write is refused.
    pub fn write(
        &mut self,
        alloc: Global,
        at: Address,
        path: &Path,
        mode: Mode,
        value: Value,
        spare: u64,
        wanted: Wanted,
    ) -> Result<Change, WriteFault>
        requires { IsSome (slot_of (store_of self.old) at.cell at.slot) }
        ensures ok { IfOk result (λ c.
            InCell at.cell at.slot (IsWrite spare (vals_of path.now) mode (val_of value) wanted c)
            (store_of self.old) (store_of self.new)) }
        ensures fault { IfErr result
            (Explains (slot_written spare (vals_of path.now) mode (val_of value)
            (slot_of (store_of self.old) at.cell at.slot))) }
        ensures same { OnErr result (store_of self.new ≡ store_of self.old) }
        ensures count { self.new.accesses ≡ counted self.old.accesses }
    {
        self.count();
        write_at(
            alloc,
            self.cells.as_mut_slice(),
            at,
            path,
            mode,
            value,
            spare,
            wanted,
        )
    }

    /// Undoes a write at the path in the slot where it was made. Counts one access and takes no
    /// memory.
    pub fn take_back(&mut self, at: Address, path: &Path, undo: Undo)
        requires { CanUndoIn (vals_of path.now) undo (slot_of (store_of self.old) at.cell at.slot) }
        ensures slot { InCell at.cell at.slot (IsUndone (vals_of path.now) undo) (store_of self.old)
            (store_of self.new) }
        ensures count { self.new.accesses ≡ counted self.old.accesses }
    {
        self.count();
        slots::take_back(self.cells.as_mut_slice(), at, path, undo);
    }

    /// Adds a cell, and answers its address. There are fewer than 4294967295 cells. Counts one
    /// access, also where there is no memory.
    pub fn push(&mut self, kind: CellKind, slots: Vec<Value>) -> Result<u32, Memory>
        requires { length (store_of self.old) < 4294967295 }
        ensures address { IfOk result (λ n. n ≡ length (store_of self.old)) }
        ensures ok { OnOk result (store_of self.new ≡
            with_cell (store_of self.old) (record { kind = kind; slots = vals_of slots.items })) }
        ensures err { OnErr result (store_of self.new ≡ store_of self.old) }
        ensures count { self.new.accesses ≡ counted self.old.accesses }
    {
        self.count();
        let address = self.cells.len() as u32;
        self.cells.push(Cell {
            kind,
            slots: Slots::from_vec(slots),
        })?;
        Ok(address)
    }

    /// Takes the last cell off. There is one. Counts one access and takes no memory.
    pub fn pop(&mut self)
        requires { 0 < length (store_of self.old) }
        ensures cells { store_of self.new ≡ without_last (store_of self.old) }
        ensures count { self.new.accesses ≡ counted self.old.accesses }
    {
        self.count();
        let _ = self.cells.pop();
    }

    fn count(&mut self)
        ensures { self.new ≡ touched self.old }
    {
        self.accesses = self.accesses.saturating_add(1);
    }
}
