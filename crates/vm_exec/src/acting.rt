//! One operation.

ghost use Rattle.std.specs.Prelude.{◌<◌, IfOk};
ghost use Rattle.verse_code.specs.Validity.{Valid};
ghost use Rattle.verse_code_machine.specs.Belonging.{StoreBelongs};
ghost use Rattle.vm_frames.specs.Framed.{place_of};
ghost use Rattle.vm_running.specs.Views.{Ready};
ghost use Rattle.vm_running.specs.Runners.{view_of};
ghost use Rattle.vm_running.specs.Doings.{acts};
ghost use Rattle.vm_exec_tasks.specs.Asking.{Asks};
ghost use Rattle.vm_exec_tasks.specs.Leaving.{Leaves};
ghost use Rattle.vm_exec.specs.Sorting.{FitsChar};

use crate::composites::composite_act;
use crate::controls::control_act;
use crate::kinds::{Sorted, sort};
use crate::numbers::number_act;
use crate::others::task_act;
use crate::pushing::push_act;
use crate::stores::store_act;
use std::alloc::Global;
use tx_heap::heaps::Heap;
use verse_base::refusals::Memory;
use verse_code::codes::Code;
use verse_code::operations::Op;
use vm_exec_tasks::asked::Asked;
use vm_running::runners::Runner;

/// Carries an operation out: what is the task's own is done, and the rest is asked.
pub fn act<H: Heap>(
    alloc: Global,
    run: &mut Runner<H>,
    code: &Code,
    op: Op,
) -> Result<Asked, Memory>
    requires ready { Ready (view_of H.state run.old) }
    requires inner { place_of run.old.thread < 4294967295 }
    requires valid { Valid code.now }
    requires char { FitsChar op }
    requires belongs { StoreBelongs code.now.classes (H.state run.old.heap).cells }
    ensures asks { IfOk result (λ k. Asks (acts code.now op) k (view_of H.state run.old)
        (view_of H.state run.new)) }
    ensures leaves { IfOk result
        (λ k. Leaves k (view_of H.state run.old) (view_of H.state run.new)) }
{
    let did = match sort(op) {
        Sorted::Push(op) => push_act(alloc, run, code, op)?,
        Sorted::Number(op) => number_act(alloc, run, code, op)?,
        Sorted::Composite(op) => composite_act(alloc, run, code, op)?,
        Sorted::Store(op) => store_act(alloc, run, code, op)?,
        Sorted::Control(op) => control_act(alloc, run, code, op)?,
        Sorted::Task(op) => return task_act(alloc, run, code, op),
    };
    Ok(Asked::Nothing(did))
}
