//! Values that are pushed, and values in locals.

ghost use Rattle.std.specs.Prelude.{◌≡◌, ◌<◌, IfOk};
ghost use Rattle.verse_value.specs.Val.{int};
ghost use Rattle.verse_value.specs.View.{val_of};
ghost use Rattle.vm_frames.specs.Framed.{place_of};
ghost use Rattle.vm_running.specs.Views.{Ready};
ghost use Rattle.vm_running.specs.Runners.{view_of};
ghost use Rattle.vm_running.specs.Doings.{acts};
ghost use Rattle.vm_running.specs.Comes.{Comes};
ghost use Rattle.vm_exec.specs.Sorting.{push_of, FitsChar};

use crate::kinds::PushOp;
use std::alloc::Global;
use tx_heap::heaps::Heap;
use verse_base::refusals::Memory;
use verse_code::codes::Code;
use verse_value::values::Value;
use vm_exec_values::moves::{char, discard, get, put, text};
use vm_running::moves::push_on;
use vm_running::runners::{Did, Runner};

/// The operation is carried out.
pub fn push_act<H: Heap>(
    alloc: Global,
    run: &mut Runner<H>,
    code: &Code,
    op: PushOp,
) -> Result<Did, Memory>
    requires ready { Ready (view_of H.state run.old) }
    requires inner { place_of run.old.thread < 4294967295 }
    requires char { FitsChar (push_of op) }
    ensures { IfOk result (λ d. Comes (acts code.now (push_of op)) d (view_of H.state run.old)
        (view_of H.state run.new)) }
{
    match op {
        PushOp::Int(value) => push_on(run, int_of(value)),
        PushOp::Unit => push_on(run, Value::Unit),
        PushOp::False => push_on(run, Value::False),
        PushOp::True => push_on(run, Value::True),
        PushOp::Char(byte) => char(run, byte),
        PushOp::Text(index) => text(alloc, run, code, index),
        PushOp::Enum(item, value) => push_on(run, Value::Enum(item, value)),
        PushOp::Get(local) => get(alloc, run, local),
        PushOp::Put(local) => Ok(put(run, local)),
        PushOp::Drop => Ok(discard(run)),
    }
}

fn int_of(value: i64) -> Value
    ensures { val_of result ≡ int value }
{
    Value::Int(value)
}
