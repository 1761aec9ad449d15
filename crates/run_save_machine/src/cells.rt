//! Cells are put into a heap.

ghost use Rattle.std.specs.Prelude.{◌≡◌, map, OnOk};
ghost use Rattle.verse_value.specs.Store.{with_cell};
ghost use Rattle.run_save_shots.specs.View.{cell_of};
ghost use Rattle.tx_heap.specs.State.{empty, IsLight, with_new};
ghost use Rattle.run_save_machine.specs.Filled.{filled};

use tx_heap::heaps::Heap;
use verse_base::refusals::Memory;
use verse_value::runs::CellKind;
use verse_value::values::Value;

/// One cell more.
#[tactic(auto, using(crate::proofs::Lightness::few))]
fn add<H: Heap>(heap: &mut H, kind: CellKind, slots: Vec<Value>) -> Result<(), Memory>
    requires { IsLight (with_cell (H.state heap.old).cells (cell_of (kind, slots))) }
    ensures { OnOk result (H.state heap.new ≡ with_new (H.state heap.old) (cell_of (kind, slots))) }
{
    heap.alloc_cell(kind, slots)?;
    Ok(())
}

/// All cells, by address, into an empty heap. They weigh at most 16000000 in all.
pub fn fill<H: Heap>(heap: &mut H, cells: Vec<(CellKind, Vec<Value>)>) -> Result<(), Memory>
    requires empty { H.state heap.old ≡ empty }
    requires light { IsLight (map cell_of cells.items) }
    ensures { OnOk result (H.state heap.new ≡ filled (map cell_of cells.items)) }
{
    let mut cells = cells;
    cells.reverse();
    'all: while let Some((kind, slots)) = cells.pop() {
        add(heap, kind, slots)?;
    }
    Ok(())
}
