//! A heap that keeps copies of all cells.

ghost use Rattle.std.specs.Prelude.{◌≡◌, None, Some, MatchOption};
ghost use Rattle.verse_value.specs.View.{val_of};
ghost use Rattle.verse_value.specs.Store.{slot_of};
ghost use Rattle.tx_heap.specs.State.{empty};
ghost use Rattle.tx_heap.specs.Copies.{state_of};

use crate::heaps::Heap;
use crate::light_list::LightList;
use std::alloc::Global;
use verse_base::refusals::Memory;
use verse_cells::slots::{Address, Wanted};
use verse_value::runs::CellKind;
use verse_value::values::Value;
use verse_value_writes::paths::Path;
use verse_value_writes::writes::{Mode, WriteFault};

/// A heap that keeps a copy of all cells for each open mark.
#[derive(Drop)]
pub struct CopyHeap {
    alloc: Global,
    cells: LightList,
    marks: Vec<LightList>,
}

impl CopyHeap {
    /// No cells, and no mark. Takes no memory.
    pub fn new(alloc: Global) -> CopyHeap
        ensures { state_of result ≡ empty }
    {
        CopyHeap {
            alloc,
            cells: LightList::new(alloc),
            marks: Vec::new(alloc),
        }
    }

    /// What a slot holds, where the cell and the slot are there. Takes no memory.
    pub fn find(&self, cell: u32, slot: u32) -> Option<&Value>
        ensures { MatchOption result (slot_of (state_of self.now).cells cell slot ≡ None)
            (λ v. slot_of (state_of self.now).cells cell slot ≡ Some (val_of v.now)) }
    {
        self.cells.find(cell, slot)
    }
}

impl Heap for CopyHeap {
    ghost use Rattle.tx_heap.specs.Copies.{state_of, dues_of};

    ghost state = { state_of };

    ghost count = { λ _. 0 };

    ghost dues = { dues_of };

    fn alloc_cell(&mut self, kind: CellKind, slots: Vec<Value>) -> Result<u32, Memory> {
        self.cells.push(kind, slots)
    }

    fn set(&mut self, cell: u32, slot: u32, value: Value) -> Result<(), Memory> {
        self.cells.put(cell, slot, value);
        Ok(())
    }

    fn write_wanted(
        &mut self,
        at: Address,
        path: &Path,
        mode: Mode,
        value: Value,
        wanted: Wanted,
    ) -> Result<Option<Value>, WriteFault> {
        self.cells.write(self.alloc, at, path, mode, value, wanted)
    }

    fn get(&mut self, cell: u32, slot: u32) -> &Value {
        self.cells.get(cell, slot)
    }

    fn int_at(&mut self, cell: u32, slot: u32) -> Option<i64> {
        self.cells.int_at(cell, slot)
    }

    fn set_int(&mut self, cell: u32, slot: u32, n: i64) -> bool {
        self.cells.put_int(cell, slot, n).is_some()
    }

    fn kind(&mut self, cell: u32) -> CellKind {
        self.cells.kind(cell)
    }

    fn mark(&mut self) -> Result<(), Memory> {
        let copy = self.cells.copy(self.alloc)?;
        self.marks.push(copy)?;
        Ok(())
    }

    fn commit(&mut self) {
        let _ = self.marks.pop();
    }

    fn rollback(&mut self) {
        if let Some(cells) = self.marks.pop() {
            self.cells = cells;
        }
    }

    fn len(&self) -> u32 {
        self.cells.len()
    }

    fn weight(&self) -> u64 {
        self.cells.weight()
    }

    fn depth(&self) -> u64 {
        self.marks.len() as u64
    }

    fn accesses(&self) -> u64 {
        0
    }
}
