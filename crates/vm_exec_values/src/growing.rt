//! An array in a local that grows.

ghost use Rattle.std.specs.Prelude.{◌<◌, IfOk};
ghost use Rattle.verse_code.specs.declared.operations.Op.TheVariants as op;
ghost use Rattle.vm_frames.specs.Framed.{place_of};
ghost use Rattle.vm_running.specs.Views.{Ready};
ghost use Rattle.vm_running.specs.Runners.{view_of};
ghost use Rattle.vm_running.specs.Doings.{acts};
ghost use Rattle.vm_running.specs.Comes.{Comes};
ghost use Rattle.std.specs.Prelude.{◌≡◌, length, Some};
ghost use Rattle.verse_value.specs.Val.{Val};
ghost use Rattle.verse_value.specs.Answer.{Answer};
ghost use Rattle.vm_ops.specs.Answers.{IsAnswerOrMemory};
ghost use Rattle.vm_frames.specs.Framed.{locals_of};
ghost use Rattle.vm_exec_values.specs.Settling.{CannotFail, holding};
ghost use Rattle.vm_running.specs.Doings.{answers_to, place_in};

use std::alloc::Global;
use tx_heap::heaps::Heap;
use verse_base::refusals::Memory;
use verse_code::codes::Code;
use verse_value::runs::Ending;
use verse_value::values::Value;
use vm_ops::aggregates::op_append;
use vm_ops::faults::OpFault;
use vm_running::answering::raise;
use vm_running::moves::go_on;
use vm_running::runners::{Did, Runner};

/// Pops a value and puts it behind the last of the array in this local, or comes to an error at the
/// place of this number.
pub fn append<H: Heap>(
    alloc: Global,
    run: &mut Runner<H>,
    code: &Code,
    local: u32,
    place: u32,
) -> Result<Did, Memory>
    requires ready { Ready (view_of H.state run.old) }
    requires inner { place_of run.old.thread < 4294967295 }
    ensures { IfOk result (λ d. Comes (acts code.now (op.Append local place)) d
        (view_of H.state run.old) (view_of H.state run.new)) }
{
    let Some(value) = run.thread.pop() else {
        return Ok(Did::Over(Ending::Stuck));
    };
    if !run.thread.has_local(local as usize) {
        return Ok(Did::Over(Ending::Stuck));
    }
    let array = run.thread.put_local(local as usize, Value::Unit);
    settle(
        run,
        code,
        Target { local, place },
        op_append(alloc, array, value),
    )
}

// Where a value goes that is made, and the number of the place of an error.
#[derive(Clone, Copy)]
struct Target {
    local: u32,
    place: u32,
}

// The value made goes into the local; what is no value and no error is stuck. The local has been
// emptied, and is there.
fn settle<H: Heap>(
    run: &mut Runner<H>,
    code: &Code,
    target: Target,
    outcome: Result<Value, OpFault>,
) -> Result<Did, Memory>
    requires ready { Ready (view_of H.state run.old) }
    requires inner { place_of run.old.thread < 4294967295 }
    requires there { target.local < length (locals_of run.old.thread) }
    ensures { (a : Answer Val) (w : Val) → IsAnswerOrMemory a outcome → CannotFail a →
        IfOk result (λ d. Comes (answers_to (place_in code.now (Some target.place)) target.local a)
        d (holding target.local w (view_of H.state run.old)) (view_of H.state run.new)) }
{
    match outcome {
        Ok(value) => {
            let _ = run.thread.put_local(target.local as usize, value);
            Ok(go_on(run))
        }
        Err(OpFault::Fault(kind)) => Ok(raise(run, code, Some(target.place), kind)),
        Err(OpFault::Stuck) | Err(OpFault::Fail) => Ok(Did::Over(Ending::Stuck)),
        Err(OpFault::Memory) => Err(Memory),
    }
}
