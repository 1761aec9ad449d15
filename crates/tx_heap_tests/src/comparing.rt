//! Whether two heaps that stand for the same tell the same.

ghost use Rattle.std.specs.Prelude.{◌≡◌, ◌<◌, length, OnOk};
ghost use Rattle.tx_heap.specs.Copies.{state_of};

use std::alloc::Global;
use tx_heap::calls::{Call, make_both};
use tx_heap::copy_heap::CopyHeap;
use tx_heap::heaps::Heap;
use verse_base::refusals::Memory;
use verse_value::equality::equal;

/// Whether the heaps have as many cells, of the same kinds, with equal values in their first slots.
pub fn are_alike<H: Heap>(copies: &mut CopyHeap, heap: &mut H) -> bool
    requires { H.state heap.old ≡ state_of copies.old }
    ensures heap { H.state heap.new ≡ H.state heap.old }
    ensures copies { state_of copies.new ≡ state_of copies.old }
{
    let count = copies.len();
    let mut alike = count == heap.len();
    'cells: for cell in 0..count {
        alike = alike && is_cell_alike(copies, heap, cell);
    }
    alike
}

/// Whether a cell is of the same kind in both, with an equal value in its first slot.
fn is_cell_alike<H: Heap>(copies: &mut CopyHeap, heap: &mut H, cell: u32) -> bool
    requires same { H.state heap.old ≡ state_of copies.old }
    requires there { cell < length (state_of copies.old).cells }
    ensures heap { H.state heap.new ≡ H.state heap.old }
    ensures copies { state_of copies.new ≡ state_of copies.old }
{
    if copies.kind(cell) != heap.kind(cell) {
        return false;
    }
    match copies.find(cell, 0) {
        Some(value) => equal(value, heap.get(cell, 0)),
        None => true,
    }
}

/// Makes the call on both where it may be made, and answers whether all cells are the same then.
pub fn step<H: Heap>(
    alloc: Global,
    copies: &mut CopyHeap,
    heap: &mut H,
    call: &Call,
) -> Result<bool, Memory>
    requires { H.state heap.old ≡ state_of copies.old }
    ensures { OnOk result (state_of copies.new ≡ H.state heap.new) }
{
    let _ = make_both(alloc, copies, heap, call)?;
    Ok(are_alike(copies, heap))
}
