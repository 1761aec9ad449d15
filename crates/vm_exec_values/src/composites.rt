//! Operations on values of any kind, and what is read of composite ones.

ghost use Rattle.std.specs.Prelude.{◌<◌, IfOk};
ghost use Rattle.verse_code.specs.declared.operations.Op.TheVariants as op;
ghost use Rattle.vm_frames.specs.Framed.{place_of};
ghost use Rattle.vm_running.specs.Views.{Ready};
ghost use Rattle.vm_running.specs.Runners.{view_of};
ghost use Rattle.vm_running.specs.Doings.{acts};
ghost use Rattle.vm_running.specs.Comes.{Comes};

use std::alloc::Global;
use tx_heap::heaps::Heap;
use verse_base::refusals::Memory;
use verse_code::codes::Code;
use verse_value::runs::Ending;
use vm_ops::aggregates::{op_concat, op_some};
use vm_ops::equality::{op_eq, op_ne};
use vm_ops::parts::{op_at, op_item, op_length, op_query};
use vm_running::answering::answer;
use vm_running::operands::pop_two;
use vm_running::runners::{Did, Runner};

/// Pops two values and pushes the first where they are equal; fails otherwise.
pub fn equal<H: Heap>(run: &mut Runner<H>, code: &Code) -> Result<Did, Memory>
    requires ready { Ready (view_of H.state run.old) }
    requires inner { place_of run.old.thread < 4294967295 }
    ensures { IfOk result (λ d. Comes (acts code.now op.Eq) d (view_of H.state run.old)
        (view_of H.state run.new)) }
{
    let Some((first, second)) = pop_two(&mut run.thread) else {
        return Ok(Did::Over(Ending::Stuck));
    };
    answer(run, code, None, op_eq(first, second))
}

/// Pops two values and pushes the first where they are not equal; fails otherwise.
pub fn unequal<H: Heap>(run: &mut Runner<H>, code: &Code) -> Result<Did, Memory>
    requires ready { Ready (view_of H.state run.old) }
    requires inner { place_of run.old.thread < 4294967295 }
    ensures { IfOk result (λ d. Comes (acts code.now op.Ne) d (view_of H.state run.old)
        (view_of H.state run.new)) }
{
    let Some((first, second)) = pop_two(&mut run.thread) else {
        return Ok(Did::Over(Ending::Stuck));
    };
    answer(run, code, None, op_ne(first, second))
}

/// Pops two arrays and pushes them joined, or an error at the place of this number.
pub fn concat<H: Heap>(
    alloc: Global,
    run: &mut Runner<H>,
    code: &Code,
    place: u32,
) -> Result<Did, Memory>
    requires ready { Ready (view_of H.state run.old) }
    requires inner { place_of run.old.thread < 4294967295 }
    ensures { IfOk result (λ d. Comes (acts code.now (op.Concat place)) d (view_of H.state run.old)
        (view_of H.state run.new)) }
{
    let Some((first, second)) = pop_two(&mut run.thread) else {
        return Ok(Did::Over(Ending::Stuck));
    };
    answer(run, code, Some(place), op_concat(alloc, first, second))
}

/// Pops a container and an index and pushes the element there; fails where there is none.
pub fn at<H: Heap>(alloc: Global, run: &mut Runner<H>, code: &Code) -> Result<Did, Memory>
    requires ready { Ready (view_of H.state run.old) }
    requires inner { place_of run.old.thread < 4294967295 }
    ensures { IfOk result (λ d. Comes (acts code.now op.At) d (view_of H.state run.old)
        (view_of H.state run.new)) }
{
    let Some((first, second)) = pop_two(&mut run.thread) else {
        return Ok(Did::Over(Ending::Stuck));
    };
    answer(run, code, None, op_at(alloc, first, second))
}

/// Pops a value and pushes the option of it, or an error at the place of this number.
pub fn optional<H: Heap>(
    alloc: Global,
    run: &mut Runner<H>,
    code: &Code,
    place: u32,
) -> Result<Did, Memory>
    requires ready { Ready (view_of H.state run.old) }
    requires inner { place_of run.old.thread < 4294967295 }
    ensures { IfOk result (λ d. Comes (acts code.now (op.Some place)) d (view_of H.state run.old)
        (view_of H.state run.new)) }
{
    let Some(value) = run.thread.pop() else {
        return Ok(Did::Over(Ending::Stuck));
    };
    answer(run, code, Some(place), op_some(alloc, value))
}

/// Pops an option or a logic and pushes its content; fails at `false`.
pub fn query<H: Heap>(run: &mut Runner<H>, code: &Code) -> Result<Did, Memory>
    requires ready { Ready (view_of H.state run.old) }
    requires inner { place_of run.old.thread < 4294967295 }
    ensures { IfOk result (λ d. Comes (acts code.now op.Query) d (view_of H.state run.old)
        (view_of H.state run.new)) }
{
    let Some(value) = run.thread.pop() else {
        return Ok(Did::Over(Ending::Stuck));
    };
    answer(run, code, None, op_query(value))
}

/// Pops a tuple and pushes the element of this number.
pub fn item<H: Heap>(run: &mut Runner<H>, code: &Code, at: u32) -> Result<Did, Memory>
    requires ready { Ready (view_of H.state run.old) }
    requires inner { place_of run.old.thread < 4294967295 }
    ensures { IfOk result (λ d. Comes (acts code.now (op.Item at)) d (view_of H.state run.old)
        (view_of H.state run.new)) }
{
    let Some(value) = run.thread.pop() else {
        return Ok(Did::Over(Ending::Stuck));
    };
    answer(run, code, None, op_item(value, at))
}

/// Pops an array or a map and pushes its length.
pub fn length<H: Heap>(run: &mut Runner<H>, code: &Code) -> Result<Did, Memory>
    requires ready { Ready (view_of H.state run.old) }
    requires inner { place_of run.old.thread < 4294967295 }
    ensures { IfOk result (λ d. Comes (acts code.now op.Length) d (view_of H.state run.old)
        (view_of H.state run.new)) }
{
    let Some(value) = run.thread.pop() else {
        return Ok(Did::Over(Ending::Stuck));
    };
    answer(run, code, None, op_length(value))
}
