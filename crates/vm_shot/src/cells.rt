//! What is kept of the cells of a heap.

ghost use Rattle.std.specs.Prelude.{◌≡◌, ◌<◌, ℕ, Some, length, map, option_map, slice_get, IfOk};
ghost use Rattle.verse_value.specs.Store.{Cell};
ghost use Rattle.verse_value.specs.View.{vals_of};
ghost use Rattle.verse_code_machine.specs.Belonging.{StoreBelongs, slots_of};
ghost use Rattle.run_save_shots.specs.View.{cell_of};
ghost use Rattle.vm_shot.specs.Cells.{HasSlots};

use std::alloc::Global;
use tx_heap::heaps::Heap;
use verse_base::refusals::Memory;
use verse_code::codes::Code;
use verse_value::runs::CellKind;
use verse_value::values::Value;

/// What is kept of all cells, by address. Only the count of accesses changes.
pub fn cells_shot<H: Heap>(
    alloc: Global,
    heap: &mut H,
    code: &Code,
) -> Result<Vec<(CellKind, Vec<Value>)>, Memory>
    requires belongs { StoreBelongs code.now.classes (H.state heap.old).cells }
    ensures cells { IfOk result (λ cs. map cell_of cs.items ≡ (H.state heap.old).cells) }
    ensures same { H.state heap.new ≡ H.state heap.old }
{
    let mut cells = Vec::new(alloc);
    let count = heap.len();
    'cells: for address in 0..count {
        let cell = cell_shot(alloc, heap, code, address)?;
        cells.push(cell)?;
    }
    Ok(cells)
}

/// What is kept of the cell of this address.
fn cell_shot<H: Heap>(
    alloc: Global,
    heap: &mut H,
    code: &Code,
    address: u32,
) -> Result<(CellKind, Vec<Value>), Memory>
    requires there { address < length (H.state heap.old).cells }
    requires belongs { StoreBelongs code.now.classes (H.state heap.old).cells }
    ensures cell { IfOk result (λ c. slice_get (H.state heap.old).cells address ≡
        Some (cell_of c)) }
    ensures same { H.state heap.new ≡ H.state heap.old }
{
    let kind = heap.kind(address);
    let slots = slots_shot(alloc, heap, address, slots_in(code, kind))?;
    Ok((kind, slots))
}

/// Copies of the slots of a cell that has so many.
fn slots_shot<H: Heap>(
    alloc: Global,
    heap: &mut H,
    cell: u32,
    count: u32,
) -> Result<Vec<Value>, Memory>
    requires { HasSlots (H.state heap.old).cells cell count }
    ensures slots { IfOk result (λ vs. option_map (λ (c : Cell). c.slots)
        (slice_get (H.state heap.old).cells cell) ≡ Some (vals_of vs.items)) }
    ensures same { H.state heap.new ≡ H.state heap.old }
{
    let mut slots = Vec::new(alloc);
    'slots: for slot in 0..count {
        let value = heap.get(cell, slot).copy(alloc)?;
        slots.push(value)?;
    }
    Ok(slots)
}

/// How many slots a cell of this kind has, where its class is one of the code's.
fn slots_in(code: &Code, kind: CellKind) -> u32
    ensures { (n : ℕ) → slots_of code.now.classes kind ≡ Some n → result ≡ n }
{
    match kind {
        CellKind::Var => 1,
        CellKind::Event => 0,
        CellKind::Object(class) => match code.classes.get(class as usize) {
            Some(class) => class.slots,
            None => 0,
        },
    }
}
