//! Cells whose weight in all is bounded, and whose accesses are counted.

ghost use Rattle.std.specs.Prelude.{◌≡◌, ◌<◌, ◌≤◌, ◌+◌, [], ◌∷◌, length, drop, IsSome, Some, Ok};
ghost use Rattle.std.specs.Prelude.{IfOk, IfErr, OnOk, OnErr, IfSome, OnSome, IfNone, slice_get};
ghost use Rattle.std.specs.Prelude.{option_map};
ghost use Rattle.std.specs.Borrow.{sem};
ghost use Rattle.verse_value.specs.Val.{int};
ghost use Rattle.verse_value.specs.View.{val_of, vals_of};
ghost use Rattle.verse_value.specs.Store as store;
ghost use Rattle.verse_value.specs.Store.{slot_of, stored, with_cell, store_weight};
ghost use Rattle.verse_value_writes.specs.Writes.{Explains};
ghost use Rattle.verse_cells.specs.Changes.{InCell, HoldsNoInt};
ghost use Rattle.verse_cells.specs.Held.{store_of, touched};
ghost use Rattle.tx_heap.specs.State.{new_cell, IsLight};
ghost use Rattle.tx_heap.specs.Outcomes.{cells_written, Lands};
ghost use Rattle.tx_heap.specs.Weighed.{IsWeighed};
ghost use Rattle.tx_heap.specs.Undo.{back, CanGoBack, Undoable, Undoing, UndoneBy, rewound};
ghost use Rattle.tx_heap.specs.Rests.{RestsTouched};

use crate::entries::{Entry, Mark};
use crate::light_list::reweighed;
use std::alloc::Global;
use std::marker::Model;
use verse_base::refusals::Memory;
use verse_cells::cells::Cells;
use verse_cells::slots::{Address, Change, Wanted};
use verse_value::runs::CellKind;
use verse_value::sizes::{MOST_STORE_WEIGHT, cell_weight, weight};
use verse_value::values::Value;
use verse_value_writes::paths::Path;
use verse_value_writes::writes::{Mode, WriteFault};

/// Counted cells with the sum of their weights, which is at most 16000000.
#[derive(Drop)]
pub struct LightCells {
    cells: Cells,
    weight: u64,
}

impl Model for LightCells {
    ghost use Rattle.std.specs.Coded.{codes};
    ghost use Rattle.verse_cells.specs.Held.{Held, store_of};
    ghost use Rattle.verse_cells.specs.contracts.slots.Cell as c;
    ghost use Rattle.tx_heap.specs.Weighed.{IsWeighed};

    ghost Value = { Held };

    ghost coded = { Prim.hlevel (codes, c.the_row.coded) };

    ghost view = { λ w. w.cells };

    ghost invariant = { λ w. IsWeighed w.weight (store_of w.cells) };
}

impl LightCells {
    /// No cells, and no access. Takes no memory.
    pub fn new(alloc: Global) -> LightCells
        ensures { result ≡ record { cells = []; accesses = 0 } }
    {
        LightCells {
            cells: Cells::new(alloc),
            weight: 0,
        }
    }

    /// How many cells there are.
    pub fn len(&self) -> u32
        ensures { result ≡ length (store_of self.now) }
    {
        self.cells.len()
    }

    /// The sum of the weights.
    pub fn weight(&self) -> u64
        ensures sum { result ≡ store_weight (store_of self.now) }
        ensures light { IsLight (store_of self.now) }
    {
        self.weight
    }

    /// How often a cell was accessed.
    pub fn accesses(&self) -> u64
        ensures { result ≡ self.now.accesses }
    {
        self.cells.accesses()
    }

    /// What a slot holds. The cell and the slot are there.
    pub fn get(&mut self, cell: u32, slot: u32) -> &Value
        requires { IsSome (slot_of (store_of self.old) cell slot) }
        ensures value { slot_of (store_of self.old) cell slot ≡ Some (val_of result.now) }
        ensures* same { sem 𝓛 (RestsTouched self.entry) }
    {
        self.cells.get(cell, slot)
    }

    /// The int that a slot holds; None where it holds none, or is not there.
    pub fn int_at(&mut self, cell: u32, slot: u32) -> Option<i64>
        ensures some { IfSome result (λ n. slot_of (store_of self.old) cell slot ≡ Some (int n)) }
        ensures none { IfNone result (HoldsNoInt (slot_of (store_of self.old) cell slot)) }
        ensures same { self.new ≡ touched self.old }
    {
        self.cells.int_at(cell, slot)
    }

    /// What a cell is. It is there.
    pub fn kind(&mut self, cell: u32) -> CellKind
        requires { cell < length (store_of self.old) }
        ensures kind { option_map (λ (c : store.Cell). c.kind)
            (slice_get (store_of self.old) cell) ≡ Some result }
        ensures same { self.new ≡ touched self.old }
    {
        self.cells.kind(cell)
    }

    /// Adds a cell, and answers its address.
    pub fn push(&mut self, kind: CellKind, slots: Vec<Value>) -> Result<u32, Memory>
        requires fewer { length (store_of self.old) < 4294967295 }
        requires light { IsLight (with_cell (store_of self.old)
            (new_cell kind (vals_of slots.items))) }
        ensures address { IfOk result (λ n. n ≡ length (store_of self.old)) }
        ensures ok { OnOk result (store_of self.new ≡
            with_cell (store_of self.old) (new_cell kind (vals_of slots.items))) }
        ensures err { OnErr result (store_of self.new ≡ store_of self.old) }
    {
        let more = cell_weight(slots.as_slice());
        let address = self.cells.push(kind, slots)?;
        self.weight += more;
        Ok(address)
    }

    /// Puts a value in a slot, and answers the one that it held. The cell and the slot are there.
    /// Takes no memory.
    pub fn put(&mut self, cell: u32, slot: u32, value: Value) -> Value
        requires there { IsSome (slot_of (store_of self.old) cell slot) }
        requires light { IsLight (stored (store_of self.old) cell slot (val_of value)) }
        ensures old { slot_of (store_of self.old) cell slot ≡ Some (val_of result) }
        ensures new { store_of self.new ≡ stored (store_of self.old) cell slot (val_of value) }
    {
        let after = weight(&value);
        let old = self.cells.put(cell, slot, value);
        self.weight = reweighed(self.weight, weight(&old), after);
        old
    }

    /// Puts an int in a slot that holds one, and answers the one that it held. None, and the cells
    /// are unchanged, where it holds none, or is not there. Takes no memory.
    pub fn put_int(&mut self, cell: u32, slot: u32, n: i64) -> Option<i64>
        ensures old { IfSome result (λ m. slot_of (store_of self.old) cell slot ≡ Some (int m)) }
        ensures new { OnSome result (store_of self.new ≡
            stored (store_of self.old) cell slot (int n)) }
        ensures none { IfNone result (HoldsNoInt (slot_of (store_of self.old) cell slot)) }
        ensures same { IfNone result (store_of self.new ≡ store_of self.old) }
    {
        self.cells.put_int(cell, slot, n)
    }

    /// Writes at a path in a slot, where the sum stays within its limit, and hands back what is
    /// wanted of the value written, and what undoes the write.
    pub fn write(
        &mut self,
        alloc: Global,
        at: Address,
        path: &Path,
        mode: Mode,
        value: Value,
        wanted: Wanted,
    ) -> Result<Change, WriteFault>
        requires { IsSome (slot_of (store_of self.old) at.cell at.slot) }
        ensures ok { IfOk result (λ w.
            Lands wanted (cells_written (store_of self.old) at.cell at.slot (vals_of path.now) mode
            (val_of value)) (store_of self.new) w.value) }
        ensures undo { IfOk result (λ w. InCell at.cell at.slot (UndoneBy (vals_of path.now) w.undo)
            (store_of self.old) (store_of self.new)) }
        ensures fault { IfErr result
            (Explains (cells_written (store_of self.old) at.cell at.slot (vals_of path.now) mode
            (val_of value))) }
        ensures same { OnErr result (store_of self.new ≡ store_of self.old) }
    {
        let spare = MOST_STORE_WEIGHT - self.weight;
        let change = self
            .cells
            .write(alloc, at, path, mode, value, spare, wanted)?;
        self.weight = reweighed(self.weight, change.before, change.after);
        Ok(change)
    }

    /// Undoes the newest entries until as many are left as stood at the mark. Takes no memory.
    pub fn rewind(&mut self, log: &mut Vec<Entry>, mark: Mark)
        requires within { mark.start ≤ length log.old.items }
        requires undoable { Undoable log.old.items (store_of self.old) }
        requires weight { IsWeighed mark.weight
            (rewound (drop mark.start log.old.items) (store_of self.old)) }
        ensures left { length log.new.items ≡ mark.start }
        ensures undone { Undoing mark.start log.old.items self.old log.new.items self.new }
    {
        undo_to(&mut self.cells, log, mark.start);
        self.weight = mark.weight;
    }
}

fn undo_to(cells: &mut Cells, log: &mut Vec<Entry>, start: usize)
    requires within { start ≤ length log.old.items }
    requires undoable { Undoable log.old.items (store_of cells.old) }
    ensures left { length log.new.items ≡ start }
    ensures undone { Undoing start log.old.items cells.old log.new.items cells.new }
{
    'entries: while log.len() > start {
        let Some(entry) = log.pop() else {
            unreachable!();
        };
        undo_one(cells, entry);
    }
}

fn undo_one(cells: &mut Cells, entry: Entry)
    requires { CanGoBack entry (store_of cells.old) }
    ensures cells { store_of cells.new ≡ back entry (store_of cells.old) }
    ensures count { cells.new.accesses ≤ cells.old.accesses + 1 }
{
    match entry {
        Entry::Slot(at, old) => {
            let _ = cells.put(at.cell, at.slot, old);
        }
        Entry::Part(at, path, undo) => cells.take_back(at, &path, undo),
        Entry::Added => cells.pop(),
    }
}
