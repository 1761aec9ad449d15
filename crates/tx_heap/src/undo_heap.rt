//! A heap that keeps what undoes each change.

ghost use Rattle.std.specs.Prelude.{◌≡◌, ◌≤◌, ◌+◌, [], ◌∷◌, ◌++◌, OnOk, vec_len, vec_capacity};

use crate::entries::{Entry, Mark};
use crate::heaps::Heap;
use crate::light_cells::LightCells;
use std::alloc::Global;
use std::marker::Model;
use verse_base::refusals::Memory;
use verse_cells::slots::{Address, Change, Wanted};
use verse_value::runs::CellKind;
use verse_value::values::Value;
use verse_value_writes::paths::Path;
use verse_value_writes::writes::{Mode, WriteFault};

/// A heap that keeps what undoes each change since its oldest open mark.
#[derive(Drop)]
pub struct UndoHeap {
    alloc: Global,
    cells: LightCells,
    log: Vec<Entry>,
    marks: Vec<Mark>,
}

impl Model for UndoHeap {
    ghost use Rattle.std.specs.Prelude.{reverse};
    ghost use Rattle.std.specs.Coded.{codes};
    ghost use Rattle.verse_cells.specs.Held.{store_of};
    ghost use Rattle.verse_cells.specs.contracts.slots.Cell as c;
    ghost use Rattle.tx_heap.specs.Logged.{Logged};
    ghost use Rattle.tx_heap.specs.Undo.{IsWhole};
    ghost use Rattle.tx_heap.specs.contracts.entries.Entry as e;
    ghost use Rattle.tx_heap.specs.contracts.entries.Mark as m;

    ghost Value = { Logged };

    ghost coded = { Prim.hlevel (codes, c.the_row.coded, e.the_row.coded, m.the_row.coded) };

    ghost view = { λ h. record {
      held = h.cells;
      log = h.log.items;
      marks =
          reverse h.marks.items;
    } };

    ghost invariant = { λ h. IsWhole h.log.items (reverse h.marks.items) (store_of h.cells) };
}

impl UndoHeap {
    /// No cells, no access, and no mark. Takes no memory.
    pub fn new(alloc: Global) -> UndoHeap
        ensures { result ≡ record {
          held = record { cells = []; accesses = 0 };
          log = [];
          marks =
              [];
        } }
    {
        UndoHeap {
            alloc,
            cells: LightCells::new(alloc),
            log: Vec::new(alloc),
            marks: Vec::new(alloc),
        }
    }
}

impl Heap for UndoHeap {
    ghost use Rattle.tx_heap.specs.Logged.{state_of, dues_of};

    ghost state = { state_of };

    ghost count = { λ h. h.held.accesses };

    ghost dues = { dues_of };

    fn alloc_cell(&mut self, kind: CellKind, slots: Vec<Value>) -> Result<u32, Memory> {
        if self.marks.is_empty() {
            return self.cells.push(kind, slots);
        }
        make_room(&mut self.log)?;
        let address = self.cells.push(kind, slots)?;
        note(&mut self.log, Entry::Added);
        Ok(address)
    }

    fn set(&mut self, cell: u32, slot: u32, value: Value) -> Result<(), Memory> {
        if self.marks.is_empty() {
            let _ = self.cells.put(cell, slot, value);
            return Ok(());
        }
        make_room(&mut self.log)?;
        let old = self.cells.put(cell, slot, value);
        note(&mut self.log, Entry::Slot(Address { cell, slot }, old));
        Ok(())
    }

    fn write_wanted(
        &mut self,
        at: Address,
        path: &Path,
        mode: Mode,
        value: Value,
        wanted: Wanted,
    ) -> Result<Option<Value>, WriteFault> {
        if self.marks.is_empty() {
            let change = self.cells.write(self.alloc, at, path, mode, value, wanted)?;
            return Ok(change.value);
        }
        let kept = path.copy(self.alloc)?;
        make_room(&mut self.log)?;
        let Change {
            value,
            undo,
            before: _,
            after: _,
        } = self.cells.write(self.alloc, at, path, mode, value, wanted)?;
        note(&mut self.log, Entry::Part(at, kept, undo));
        Ok(value)
    }

    fn get(&mut self, cell: u32, slot: u32) -> &Value {
        self.cells.get(cell, slot)
    }

    fn int_at(&mut self, cell: u32, slot: u32) -> Option<i64> {
        self.cells.int_at(cell, slot)
    }

    fn set_int(&mut self, cell: u32, slot: u32, n: i64) -> bool {
        if self.marks.is_empty() {
            return self.cells.put_int(cell, slot, n).is_some();
        }
        if make_room(&mut self.log).is_err() {
            return false;
        }
        let Some(old) = self.cells.put_int(cell, slot, n) else {
            return false;
        };
        note(
            &mut self.log,
            Entry::Slot(Address { cell, slot }, Value::Int(old)),
        );
        true
    }

    fn kind(&mut self, cell: u32) -> CellKind {
        self.cells.kind(cell)
    }

    fn mark(&mut self) -> Result<(), Memory> {
        let start = self.log.len();
        let weight = self.cells.weight();
        self.marks.push(Mark { start, weight })?;
        Ok(())
    }

    fn commit(&mut self) {
        if let Some(_mark) = self.marks.pop() {
            if self.marks.is_empty() {
                self.log.clear();
            }
        }
    }

    fn rollback(&mut self) {
        if let Some(mark) = self.marks.pop() {
            self.cells.rewind(&mut self.log, mark);
        }
    }

    fn len(&self) -> u32 {
        self.cells.len()
    }

    fn weight(&self) -> u64 {
        self.cells.weight()
    }

    fn depth(&self) -> u64 {
        self.marks.len() as u64
    }

    fn accesses(&self) -> u64 {
        self.cells.accesses()
    }
}

fn make_room(log: &mut Vec<Entry>) -> Result<(), Memory>
    ensures items { log.new.items ≡ log.old.items }
    ensures room { OnOk result (vec_len log.new + 1 ≤ vec_capacity log.new) }
{
    log.reserve(1)?;
    Ok(())
}

fn note(log: &mut Vec<Entry>, entry: Entry)
    requires { vec_len log.old + 1 ≤ vec_capacity log.old }
    ensures { log.new.items ≡ log.old.items ++ entry ∷ [] }
{
    if log.push(entry).is_err() {
        unreachable!();
    }
}
