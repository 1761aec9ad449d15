//! All that a machine works on.

ghost use Rattle.std.specs.Prelude.{◌≡◌, ◌≤◌, map, IfOk};
ghost use Rattle.verse_base.specs.declared.limits.TheConstants.{MOST_TRACE_BYTES};
ghost use Rattle.run_save_shots.specs.View.{cell_of};
ghost use Rattle.tx_heap.specs.State.{empty, IsLight};
ghost use Rattle.vm_running.specs.Runners.{view_of};
ghost use Rattle.run_save_machine.specs.Filled.{standing};

use crate::cells::fill;
use std::alloc::Global;
use trace_buf::buffers::TraceBuf;
use tx_heap::heaps::Heap;
use verse_base::refusals::Memory;
use verse_value::runs::CellKind;
use verse_value::values::Value;
use vm_frames::threads::Thread;
use vm_running::runners::Runner;

/// The steps that are left, those that were spent, and the moment in milliseconds.
#[derive(Clone, Copy)]
pub struct Clock {
    pub left: u64,
    pub spent: u64,
    pub now: u64,
}

/// What was printed.
#[derive(Clone, Copy)]
pub struct Printed {
    pub bytes: u64,
    pub lines: u64,
}

/// Over an empty heap the store of these cells, a trace behind what was printed, the clock as it
/// stood, and no task.
pub fn at_rest<H: Heap + Drop>(
    alloc: Global,
    heap: H,
    cells: Vec<(CellKind, Vec<Value>)>,
    clock: Clock,
    printed: Printed,
) -> Result<Runner<H>, Memory>
    requires empty { H.state heap ≡ empty }
    requires light { IsLight (map cell_of cells.items) }
    requires lines { printed.lines ≤ printed.bytes }
    requires bytes { printed.bytes ≤ MOST_TRACE_BYTES }
    ensures { IfOk result (λ r. view_of H.state r ≡
        standing (map cell_of cells.items) clock printed) }
{
    let mut heap = heap;
    fill(&mut heap, cells)?;
    Ok(Runner {
        thread: Thread::empty(alloc),
        heap,
        trace: TraceBuf::after(alloc, printed.lines as usize, printed.bytes),
        left: clock.left,
        spent: clock.spent,
        moment: clock.now,
    })
}
