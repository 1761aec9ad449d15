//! Calls.

ghost use Rattle.std.specs.Prelude.{◌≡◌, ◌<◌, ◌≤◌, IfOk, length, Some};
ghost use Rattle.verse_code.specs.Validity.{Valid};
ghost use Rattle.verse_code.specs.declared.operations.Op.TheVariants as op;
ghost use Rattle.verse_value.specs.View.{vals_of};
ghost use Rattle.vm_frames.specs.Framed.{place_of};
ghost use Rattle.vm_running.specs.Views.{Ready};
ghost use Rattle.vm_running.specs.Runners.{view_of};
ghost use Rattle.vm_running.specs.Doings.{acts};
ghost use Rattle.vm_running.specs.Comes.{Comes};
ghost use Rattle.vm_exec_calls.specs.Calling.{calls};

use crate::methods::chosen;
use std::alloc::Global;
use tx_heap::heaps::Heap;
use verse_base::refusals::Memory;
use verse_code::codes::{Code, Func};
use verse_value::runs::Ending;
use verse_value::values::Value;
use vm_running::runners::{Did, Runner};
use vm_running::spending::spend;

/// Pops the arguments of the function of this number, spends a step and begins a frame for it.
pub fn call<H: Heap>(
    alloc: Global,
    run: &mut Runner<H>,
    code: &Code,
    func: u32,
) -> Result<Did, Memory>
    requires ready { Ready (view_of H.state run.old) }
    requires inner { place_of run.old.thread < 4294967295 }
    requires valid { Valid code.now }
    ensures { IfOk result (λ d. Comes (acts code.now (op.Call func)) d (view_of H.state run.old)
        (view_of H.state run.new)) }
{
    let Some(func) = code.functions.get(func as usize) else {
        return Ok(Did::Over(Ending::Stuck));
    };
    let Some(args) = run.thread.pop_many(alloc, func.params as u64)? else {
        return Ok(Did::Over(Ending::Stuck));
    };
    enter(run, func, args)
}

/// Pops so many arguments and an object, spends a step and begins a frame for the method of this
/// number of the object's class.
pub fn call_method<H: Heap>(
    alloc: Global,
    run: &mut Runner<H>,
    code: &Code,
    method: u32,
    count: u32,
) -> Result<Did, Memory>
    requires ready { Ready (view_of H.state run.old) }
    requires inner { place_of run.old.thread < 4294967295 }
    requires valid { Valid code.now }
    ensures { IfOk result (λ d. Comes (acts code.now (op.Method method count)) d
        (view_of H.state run.old) (view_of H.state run.new)) }
{
    let Some(args) = run.thread.pop_many(alloc, count as u64 + 1)? else {
        return Ok(Did::Over(Ending::Stuck));
    };
    let Some(func) = chosen(&mut run.heap, code, method, count, args.as_slice()) else {
        return Ok(Did::Over(Ending::Stuck));
    };
    enter(run, &func, args)
}

// Spends a step and begins a frame. The frame below goes on at its next place.
fn enter<H: Heap>(run: &mut Runner<H>, func: &Func, args: Vec<Value>) -> Result<Did, Memory>
    requires ready { Ready (view_of H.state run.old) }
    requires inner { place_of run.old.thread < 4294967295 }
    requires params { length args.items ≡ func.now.params }
    requires locals { func.now.params ≤ func.now.locals }
    ensures { IfOk result (λ d. Comes (calls func.now (vals_of args.items)) d
        (view_of H.state run.old) (view_of H.state run.new)) }
{
    let next = run.thread.place() + 1;
    if !run.thread.go(next) {
        return Ok(Did::Over(Ending::Stuck));
    }
    if !spend(run) {
        return Ok(Did::Over(Ending::Steps));
    }
    run.thread.enter(func, args, run.left)?;
    Ok(Did::On)
}
