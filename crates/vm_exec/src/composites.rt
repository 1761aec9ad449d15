//! Arrays, maps, tuples, options and texts.

ghost use Rattle.std.specs.Prelude.{◌<◌, IfOk};
ghost use Rattle.vm_frames.specs.Framed.{place_of};
ghost use Rattle.vm_running.specs.Views.{Ready};
ghost use Rattle.vm_running.specs.Runners.{view_of};
ghost use Rattle.vm_running.specs.Doings.{acts};
ghost use Rattle.vm_running.specs.Comes.{Comes};
ghost use Rattle.vm_exec.specs.Sorting.{composite_of};

use crate::kinds::CompositeOp;
use std::alloc::Global;
use tx_heap::heaps::Heap;
use verse_base::refusals::Memory;
use verse_code::codes::Code;
use vm_exec_values::collected::{array, join, map, tuple};
use vm_exec_values::composites::{at, concat, equal, item, length, optional, query, unequal};
use vm_exec_values::growing::append;
use vm_running::runners::{Did, Runner};

/// The operation is carried out.
pub fn composite_act<H: Heap>(
    alloc: Global,
    run: &mut Runner<H>,
    code: &Code,
    op: CompositeOp,
) -> Result<Did, Memory>
    requires ready { Ready (view_of H.state run.old) }
    requires inner { place_of run.old.thread < 4294967295 }
    ensures { IfOk result (λ d. Comes (acts code.now (composite_of op)) d (view_of H.state run.old)
        (view_of H.state run.new)) }
{
    match op {
        CompositeOp::Concat(place) => concat(alloc, run, code, place),
        CompositeOp::Join(count, place) => join(alloc, run, code, count, place),
        CompositeOp::Eq => equal(run, code),
        CompositeOp::Ne => unequal(run, code),
        CompositeOp::Array(count, place) => array(alloc, run, code, count, place),
        CompositeOp::Map(count, place) => map(alloc, run, code, count, place),
        CompositeOp::Tuple(count, place) => tuple(alloc, run, code, count, place),
        CompositeOp::Some(place) => optional(alloc, run, code, place),
        CompositeOp::Query => query(run, code),
        CompositeOp::Item(index) => item(run, code, index),
        CompositeOp::At => at(alloc, run, code),
        CompositeOp::Length => length(run, code),
        CompositeOp::Append(local, place) => append(alloc, run, code, local, place),
    }
}
