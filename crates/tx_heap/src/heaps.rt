//! What a heap is: cells whose changes since a mark can be undone.

ghost use Rattle.std.specs.Prelude.{◌≡◌, ◌<◌, ◌≢◌, ◌↔◌, IsTrue, ℕ, List, [], ◌∷◌, IsSome, IfOk};
ghost use Rattle.std.specs.Prelude.{IfErr, OnOk, OnErr, length, slice_get, option_map, Some, Ok};
ghost use Rattle.std.specs.Prelude.{IfSome, IfNone, true, false};
ghost use Rattle.std.specs.Borrow.{sem};
ghost use Rattle.verse_value.specs.declared.runs.CellKind.{CellKind};
ghost use Rattle.std.specs.Io.BufRead.{Rests};
ghost use Rattle.verse_value.specs.Val.{int};
ghost use Rattle.verse_value.specs.View.{val_of, vals_of};
ghost use Rattle.verse_value.specs.Store.{Cell, slot_of, stored, with_cell, store_weight};
ghost use Rattle.verse_value_writes.specs.Writes.{Explains};
ghost use Rattle.verse_cells.specs.Changes.{HoldsInt, HoldsNoInt};
ghost use Rattle.tx_heap.specs.State.{State, new_cell, with_new, with_slot, marked, committed};
ghost use Rattle.tx_heap.specs.State.{rolled_back, IsLight};
ghost use Rattle.tx_heap.specs.Outcomes.{cells_written, cells_after, Lands};
ghost use Rattle.tx_heap.specs.Dues.{Raised, Joined, TakenOff, Spent};

use verse_base::refusals::Memory;
use verse_cells::slots::{Address, Wanted};
use verse_value::runs::CellKind;
use verse_value::sizes::{MOST_STORE_WEIGHT, cell_weight};
use verse_value::values::Value;
use verse_value_writes::paths::Path;
use verse_value_writes::writes::{Mode, WriteFault};

/// Cells by address from 0, whose changes since a mark can be undone. Marks nest.
///
/// After a refusal the cells, the copies and the dues are what they were.
pub trait Heap {
    /// The cells, and the copies of them at open marks, the newest first.
    ghost state: { Self → State };
    /// How often cells were accessed.
    ghost count: { Self → ℕ };
    /// How many accesses it may cost to undo, for each open mark, the newest first.
    ghost dues: { Self → List ℕ };

    /// Adds a cell, and answers its address. There are fewer than 4294967295 cells, and with this
    /// one they weigh at most 16000000 in all.
    fn alloc_cell(&mut self, kind: CellKind, slots: Vec<Value>) -> Result<u32, Memory>
        requires fewer { length (state self.old).cells < 4294967295 }
        requires light { IsLight (with_cell (state self.old).cells
            (new_cell kind (vals_of slots.items))) }
        ensures address { IfOk result (λ n. n ≡ length (state self.old).cells) }
        ensures ok { OnOk result (state self.new ≡
            with_new (state self.old) (new_cell kind (vals_of slots.items))) }
        ensures err { OnErr result (state self.new ≡ state self.old) }
        ensures due { OnOk result (Raised 1 (dues self.old) (dues self.new)) }
        ensures same_dues { OnErr result (dues self.new ≡ dues self.old) };

    /// Puts a value in a slot. The cell and the slot are there, and afterwards the cells weigh at
    /// most 16000000 in all.
    fn set(&mut self, cell: u32, slot: u32, value: Value) -> Result<(), Memory>
        requires there { IsSome (slot_of (state self.old).cells cell slot) }
        requires light { IsLight (stored (state self.old).cells cell slot (val_of value)) }
        ensures ok { OnOk result (state self.new ≡ with_slot (state self.old) cell slot
            (val_of value)) }
        ensures err { OnErr result (state self.new ≡ state self.old) }
        ensures due { OnOk result (Raised 2 (dues self.old) (dues self.new)) }
        ensures same_dues { OnErr result (dues self.new ≡ dues self.old) };

    /// Writes at a path in a slot, as `verse_value_writes::writes::write` does, and hands back what
    /// is wanted of the value written. The cell and the slot are there.
    ///
    /// The refusals are those of that call, and last `Fault(Kind::Store)`, exactly where the cells
    /// would weigh more than 16000000 in all.
    fn write_wanted(
        &mut self,
        at: Address,
        path: &Path,
        mode: Mode,
        value: Value,
        wanted: Wanted,
    ) -> Result<Option<Value>, WriteFault>
        requires { IsSome (slot_of (state self.old).cells at.cell at.slot) }
        ensures ok { IfOk result (Lands wanted
            (cells_written (state self.old).cells at.cell at.slot (vals_of path.now) mode
            (val_of value)) (state self.new).cells) }
        ensures copies { (state self.new).copies ≡ (state self.old).copies }
        ensures fault { IfErr result
            (Explains (cells_written (state self.old).cells at.cell at.slot (vals_of path.now) mode
            (val_of value))) }
        ensures err { OnErr result (state self.new ≡ state self.old) }
        ensures due { OnOk result (Raised 2 (dues self.old) (dues self.new)) }
        ensures same_dues { OnErr result (dues self.new ≡ dues self.old) };

    /// Writes as `write_wanted` does, and answers a copy of the value written.
    fn write(
        &mut self,
        cell: u32,
        slot: u32,
        path: &Path,
        mode: Mode,
        value: Value,
    ) -> Result<Value, WriteFault>
        requires { IsSome (slot_of (state self.old).cells cell slot) }
        ensures ok { IfOk result (λ v. cells_written (state self.old).cells cell slot
            (vals_of path.now) mode (val_of value) ≡ Ok ((state self.new).cells, val_of v)) }
        ensures copies { (state self.new).copies ≡ (state self.old).copies }
        ensures fault { IfErr result
            (Explains (cells_written (state self.old).cells cell slot (vals_of path.now) mode
            (val_of value))) }
        ensures err { OnErr result (state self.new ≡ state self.old) }
        ensures due { OnOk result (Raised 2 (dues self.old) (dues self.new)) }
        ensures same_dues { OnErr result (dues self.new ≡ dues self.old) }
    {
        let at = Address { cell, slot };
        match self.write_wanted(at, path, mode, value, Wanted::Copy) {
            Ok(Some(written)) => Ok(written),
            Ok(None) => unreachable!(),
            Err(fault) => Err(fault),
        }
    }

    /// Writes as `write_wanted` does, and answers nothing: no copy of the value written is made.
    fn store(
        &mut self,
        cell: u32,
        slot: u32,
        path: &Path,
        mode: Mode,
        value: Value,
    ) -> Result<(), WriteFault>
        requires { IsSome (slot_of (state self.old).cells cell slot) }
        ensures ok { OnOk result (cells_after
            (cells_written (state self.old).cells cell slot (vals_of path.now) mode
            (val_of value)) ≡ Some (state self.new).cells) }
        ensures copies { (state self.new).copies ≡ (state self.old).copies }
        ensures fault { IfErr result
            (Explains (cells_written (state self.old).cells cell slot (vals_of path.now) mode
            (val_of value))) }
        ensures err { OnErr result (state self.new ≡ state self.old) }
        ensures due { OnOk result (Raised 2 (dues self.old) (dues self.new)) }
        ensures same_dues { OnErr result (dues self.new ≡ dues self.old) }
    {
        let at = Address { cell, slot };
        match self.write_wanted(at, path, mode, value, Wanted::Nothing) {
            Ok(_) => Ok(()),
            Err(fault) => Err(fault),
        }
    }

    /// What a slot holds. The cell and the slot are there. Takes no memory.
    fn get(&mut self, cell: u32, slot: u32) -> &Value
        requires { IsSome (slot_of (state self.old).cells cell slot) }
        ensures value { slot_of (state self.old).cells cell slot ≡ Some (val_of result.now) }
        ensures* same { sem 𝓛 (Rests Self.row self.entry (λ n. (state n ≡ state self.entry.now) ×
            (dues n ≡ dues self.entry.now))) };

    /// The int that a slot holds; None where it holds none, or is not there. Takes no memory.
    fn int_at(&mut self, cell: u32, slot: u32) -> Option<i64>
        ensures some { IfSome result (λ n. slot_of (state self.old).cells cell slot ≡
            Some (int n)) }
        ensures none { IfNone result (HoldsNoInt (slot_of (state self.old).cells cell slot)) }
        ensures same { state self.new ≡ state self.old }
        ensures same_dues { dues self.new ≡ dues self.old };

    /// Puts an int in a slot that holds one, which changes no weight. False, and nothing is
    /// changed, where it holds none, or is not there, or where memory is wanting.
    fn set_int(&mut self, cell: u32, slot: u32, n: i64) -> bool
        ensures held { result ≡ true → HoldsInt (slot_of (state self.old).cells cell slot) }
        ensures yes { result ≡ true → state self.new ≡ with_slot (state self.old) cell slot
            (int n) }
        ensures no { result ≡ false → state self.new ≡ state self.old }
        ensures due { result ≡ true → Raised 2 (dues self.old) (dues self.new) }
        ensures same_dues { result ≡ false → dues self.new ≡ dues self.old };

    /// What a cell is. It is there. Takes no memory.
    fn kind(&mut self, cell: u32) -> CellKind
        requires { cell < length (state self.old).cells }
        ensures kind { option_map (λ (c : Cell). c.kind) (slice_get (state self.old).cells cell) ≡
            Some result }
        ensures same { state self.new ≡ state self.old }
        ensures same_dues { dues self.new ≡ dues self.old };

    /// Opens a mark, without an access.
    fn mark(&mut self) -> Result<(), Memory>
        ensures ok { OnOk result (state self.new ≡ marked (state self.old)) }
        ensures err { OnErr result (state self.new ≡ state self.old) }
        ensures due { OnOk result (dues self.new ≡ 0 ∷ dues self.old) }
        ensures same_dues { OnErr result (dues self.new ≡ dues self.old) }
        ensures count { count self.new ≡ count self.old };

    /// Closes the newest mark, and keeps what was done since. A mark is open. Takes no memory.
    fn commit(&mut self)
        requires { (state self.old).copies ≢ [] }
        ensures kept { state self.new ≡ committed (state self.old) }
        ensures due { Joined (dues self.old) (dues self.new) };

    /// Closes the newest mark, and undoes what was done since. A mark is open. Takes no memory.
    fn rollback(&mut self)
        requires { (state self.old).copies ≢ [] }
        ensures back { state self.new ≡ rolled_back (state self.old) }
        ensures due { TakenOff (dues self.old) (dues self.new) }
        ensures spent { Spent (dues self.old) (count self.old) (count self.new) };

    /// How many cells there are.
    fn len(&self) -> u32
        ensures { result ≡ length (state self.now).cells };

    /// What all cells weigh: at most 16000000.
    fn weight(&self) -> u64
        ensures sum { result ≡ store_weight (state self.now).cells }
        ensures light { IsLight (state self.now).cells };

    /// Whether a cell with these slots may be added: whether the cells then weigh at most 16000000
    /// in all.
    fn has_room(&self, slots: &[Value]) -> bool
        ensures { (kind : CellKind) →
            (IsTrue result ↔ IsLight (with_cell (state self.now).cells
            (new_cell kind (vals_of slots.now)))) }
    {
        self.weight().saturating_add(cell_weight(slots)) <= MOST_STORE_WEIGHT
    }

    /// How many marks are open.
    fn depth(&self) -> u64
        ensures marks { result ≡ length (state self.now).copies }
        ensures dues { result ≡ length (dues self.now) };

    /// How often cells were accessed.
    fn accesses(&self) -> u64
        ensures { result ≡ count self.now };
}
