//! Numbers.

ghost use Rattle.std.specs.Prelude.{◌<◌, IfOk};
ghost use Rattle.vm_frames.specs.Framed.{place_of};
ghost use Rattle.vm_running.specs.Views.{Ready};
ghost use Rattle.vm_running.specs.Runners.{view_of};
ghost use Rattle.vm_running.specs.Doings.{acts};
ghost use Rattle.vm_running.specs.Comes.{Comes};
ghost use Rattle.vm_exec.specs.Sorting.{number_of};

use crate::kinds::NumberOp;
use std::alloc::Global;
use tx_heap::heaps::Heap;
use verse_base::refusals::Memory;
use verse_code::codes::Code;
use vm_exec_values::numbers::{
    add, at_least, at_most, ceil, floor, greater, less, modulo, mul, negate, sub,
};
use vm_running::runners::{Did, Runner};

/// The operation is carried out.
pub fn number_act<H: Heap>(
    alloc: Global,
    run: &mut Runner<H>,
    code: &Code,
    op: NumberOp,
) -> Result<Did, Memory>
    requires ready { Ready (view_of H.state run.old) }
    requires inner { place_of run.old.thread < 4294967295 }
    ensures { IfOk result (λ d. Comes (acts code.now (number_of op)) d (view_of H.state run.old)
        (view_of H.state run.new)) }
{
    match op {
        NumberOp::Add(place) => add(run, code, place),
        NumberOp::Sub(place) => sub(run, code, place),
        NumberOp::Mul(place) => mul(run, code, place),
        NumberOp::Neg(place) => negate(run, code, place),
        NumberOp::Floor(place) => floor(run, code, place),
        NumberOp::Ceil(place) => ceil(run, code, place),
        NumberOp::Mod => modulo(run, code),
        NumberOp::Lt => less(run, code),
        NumberOp::Le => at_most(run, code),
        NumberOp::Gt => greater(run, code),
        NumberOp::Ge => at_least(run, code),
    }
}
