//! Where the task goes on.

ghost use Rattle.std.specs.Prelude.{◌<◌, IfOk};
ghost use Rattle.vm_frames.specs.Framed.{place_of};
ghost use Rattle.vm_running.specs.Views.{Ready};
ghost use Rattle.vm_running.specs.Runners.{view_of};
ghost use Rattle.vm_running.specs.Doings.{acts};
ghost use Rattle.vm_running.specs.Comes.{Comes};
ghost use Rattle.vm_exec.specs.Sorting.{control_of};
ghost use Rattle.verse_code.specs.Validity.{Valid};

use crate::kinds::ControlOp;
use std::alloc::Global;
use tx_heap::heaps::Heap;
use verse_base::refusals::Memory;
use verse_code::codes::Code;
use vm_exec_calls::calling::{call, call_method};
use vm_exec_calls::deferring::{defer, leave};
use vm_exec_loops::domains::{each, range};
use vm_exec_loops::jumps::{again, same};
use vm_exec_loops::taking::take;
use vm_running::moves::go;
use vm_running::runners::{Did, Runner};

/// The operation is carried out.
pub fn control_act<H: Heap>(
    alloc: Global,
    run: &mut Runner<H>,
    code: &Code,
    op: ControlOp,
) -> Result<Did, Memory>
    requires ready { Ready (view_of H.state run.old) }
    requires inner { place_of run.old.thread < 4294967295 }
    requires valid { Valid code.now }
    ensures { IfOk result (λ d. Comes (acts code.now (control_of op)) d (view_of H.state run.old)
        (view_of H.state run.new)) }
{
    match op {
        ControlOp::Jump(label) => Ok(go(run, label)),
        ControlOp::Same(label) => Ok(same(run, label)),
        ControlOp::Again(label) => Ok(again(run, label)),
        ControlOp::Call(func) => call(alloc, run, code, func),
        ControlOp::Method(method, count) => call_method(alloc, run, code, method, count),
        ControlOp::Each(local) => Ok(each(run, local)),
        ControlOp::Range(local) => Ok(range(run, local)),
        ControlOp::Take(turn) => take(alloc, run, turn),
        ControlOp::Defer(label) => defer(run, label),
        ControlOp::Leave(count) => Ok(leave(run, count)),
    }
}
