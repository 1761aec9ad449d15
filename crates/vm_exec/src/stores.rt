//! Cells, attempts and the trace.

ghost use Rattle.std.specs.Prelude.{◌<◌, IfOk};
ghost use Rattle.vm_frames.specs.Framed.{place_of};
ghost use Rattle.vm_running.specs.Views.{Ready};
ghost use Rattle.vm_running.specs.Runners.{view_of};
ghost use Rattle.vm_running.specs.Doings.{acts};
ghost use Rattle.vm_running.specs.Comes.{Comes};
ghost use Rattle.vm_exec.specs.Sorting.{store_of};
ghost use Rattle.verse_code_machine.specs.Belonging.{StoreBelongs};

use crate::kinds::StoreOp;
use std::alloc::Global;
use tx_heap::heaps::Heap;
use verse_base::refusals::Memory;
use verse_code::codes::Code;
use vm_exec_memory::cells::{event, object, variable};
use vm_exec_memory::contexts::{begin_attempt, commit, undo};
use vm_exec_memory::printing::print;
use vm_exec_memory::reading::load;
use vm_exec_memory::writing::store;
use vm_running::failing::fail;
use vm_running::runners::{Did, Runner};

/// The operation is carried out.
pub fn store_act<H: Heap>(
    alloc: Global,
    run: &mut Runner<H>,
    code: &Code,
    op: StoreOp,
) -> Result<Did, Memory>
    requires ready { Ready (view_of H.state run.old) }
    requires inner { place_of run.old.thread < 4294967295 }
    requires belongs { StoreBelongs code.now.classes (H.state run.old.heap).cells }
    ensures { IfOk result (λ d. Comes (acts code.now (store_of op)) d (view_of H.state run.old)
        (view_of H.state run.new)) }
{
    match op {
        StoreOp::New(place) => variable(alloc, run, code, place),
        StoreOp::Load(slot) => load(alloc, run, code, slot),
        StoreOp::Write(target) => store(alloc, run, code, target),
        StoreOp::Object(class, place) => object(alloc, run, code, class, place),
        StoreOp::Event(place) => event(alloc, run, code, place),
        StoreOp::Try(label) => begin_attempt(run, label),
        StoreOp::Commit => Ok(commit(run)),
        StoreOp::Undo => Ok(undo(run)),
        StoreOp::Fail => Ok(fail(run)),
        StoreOp::Print(place) => print(alloc, run, code, place),
    }
}
