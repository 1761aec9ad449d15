//! What a slot holds.

ghost use Rattle.std.specs.Prelude.{◌≡◌, ◌<◌, IfOk, OnErr};
ghost use Rattle.verse_code.specs.declared.operations.Op.TheVariants as op;
ghost use Rattle.verse_code_machine.specs.Belonging.{StoreBelongs};
ghost use Rattle.verse_value.specs.Storing.{read_slot};
ghost use Rattle.vm_ops.specs.Answers.{IsAnswerOrMemory};
ghost use Rattle.vm_frames.specs.Framed.{place_of};
ghost use Rattle.vm_running.specs.Views.{Ready};
ghost use Rattle.vm_running.specs.Runners.{view_of};
ghost use Rattle.vm_running.specs.Doings.{acts};
ghost use Rattle.vm_running.specs.Comes.{Comes};

use crate::slots::{cell_of, has_slot};
use std::alloc::Global;
use tx_heap::heaps::Heap;
use verse_base::refusals::Memory;
use verse_code::codes::Code;
use verse_value::runs::Ending;
use verse_value::values::Value;
use vm_ops::faults::OpFault;
use vm_running::answering::answer;
use vm_running::runners::{Did, Runner};

/// Pops a variable or an object and pushes what its slot of this number holds.
pub fn load<H: Heap>(
    alloc: Global,
    run: &mut Runner<H>,
    code: &Code,
    slot: u32,
) -> Result<Did, Memory>
    requires ready { Ready (view_of H.state run.old) }
    requires inner { place_of run.old.thread < 4294967295 }
    requires belongs { StoreBelongs code.now.classes (H.state run.old.heap).cells }
    ensures { IfOk result (λ d. Comes (acts code.now (op.Load slot)) d (view_of H.state run.old)
        (view_of H.state run.new)) }
{
    let Some(value) = run.thread.pop() else {
        return Ok(Did::Over(Ending::Stuck));
    };
    let Some(cell) = cell_of(&value) else {
        return Ok(Did::Over(Ending::Stuck));
    };
    let held = held_in(alloc, &mut run.heap, code, cell, slot);
    answer(run, code, None, held)
}

// A copy of what a slot holds; stuck where it is not there.
fn held_in<H: Heap>(
    alloc: Global,
    heap: &mut H,
    code: &Code,
    cell: u32,
    slot: u32,
) -> Result<Value, OpFault>
    requires { StoreBelongs code.now.classes (H.state heap.old).cells }
    ensures answers { IsAnswerOrMemory (read_slot (H.state heap.old).cells cell slot) result }
    ensures same { H.state heap.new ≡ H.state heap.old }
{
    if !has_slot(heap, code, cell, slot) {
        return Err(OpFault::Stuck);
    }
    let copy = heap.get(cell, slot).copy(alloc)?;
    Ok(copy)
}
