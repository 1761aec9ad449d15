//! Operations on ints.

ghost use Rattle.std.specs.Prelude.{◌<◌, IfOk};
ghost use Rattle.verse_code.specs.declared.operations.Op.TheVariants as op;
ghost use Rattle.vm_frames.specs.Framed.{place_of};
ghost use Rattle.vm_running.specs.Views.{Ready};
ghost use Rattle.vm_running.specs.Runners.{view_of};
ghost use Rattle.vm_running.specs.Doings.{acts};
ghost use Rattle.vm_running.specs.Comes.{Comes};

use tx_heap::heaps::Heap;
use verse_base::refusals::Memory;
use verse_code::codes::Code;
use verse_value::runs::Ending;
use vm_ops::ints::{
    op_add, op_ceil, op_floor, op_ge, op_gt, op_le, op_lt, op_mod, op_mul, op_neg, op_sub,
};
use vm_running::answering::answer;
use vm_running::operands::pop_two;
use vm_running::runners::{Did, Runner};

/// Pops two ints and pushes their sum, or an error at the place of this number.
pub fn add<H: Heap>(run: &mut Runner<H>, code: &Code, place: u32) -> Result<Did, Memory>
    requires ready { Ready (view_of H.state run.old) }
    requires inner { place_of run.old.thread < 4294967295 }
    ensures { IfOk result (λ d. Comes (acts code.now (op.Add place)) d (view_of H.state run.old)
        (view_of H.state run.new)) }
{
    let Some((first, second)) = pop_two(&mut run.thread) else {
        return Ok(Did::Over(Ending::Stuck));
    };
    answer(run, code, Some(place), op_add(first, second))
}

/// Pops two ints and pushes the first less the second, or an error at the place of this number.
pub fn sub<H: Heap>(run: &mut Runner<H>, code: &Code, place: u32) -> Result<Did, Memory>
    requires ready { Ready (view_of H.state run.old) }
    requires inner { place_of run.old.thread < 4294967295 }
    ensures { IfOk result (λ d. Comes (acts code.now (op.Sub place)) d (view_of H.state run.old)
        (view_of H.state run.new)) }
{
    let Some((first, second)) = pop_two(&mut run.thread) else {
        return Ok(Did::Over(Ending::Stuck));
    };
    answer(run, code, Some(place), op_sub(first, second))
}

/// Pops two ints and pushes their product, or an error at the place of this number.
pub fn mul<H: Heap>(run: &mut Runner<H>, code: &Code, place: u32) -> Result<Did, Memory>
    requires ready { Ready (view_of H.state run.old) }
    requires inner { place_of run.old.thread < 4294967295 }
    ensures { IfOk result (λ d. Comes (acts code.now (op.Mul place)) d (view_of H.state run.old)
        (view_of H.state run.new)) }
{
    let Some((first, second)) = pop_two(&mut run.thread) else {
        return Ok(Did::Over(Ending::Stuck));
    };
    answer(run, code, Some(place), op_mul(first, second))
}

/// Pops dividend and divisor and pushes the quotient rounded down; fails at 0.
pub fn floor<H: Heap>(run: &mut Runner<H>, code: &Code, place: u32) -> Result<Did, Memory>
    requires ready { Ready (view_of H.state run.old) }
    requires inner { place_of run.old.thread < 4294967295 }
    ensures { IfOk result (λ d. Comes (acts code.now (op.Floor place)) d (view_of H.state run.old)
        (view_of H.state run.new)) }
{
    let Some((first, second)) = pop_two(&mut run.thread) else {
        return Ok(Did::Over(Ending::Stuck));
    };
    answer(run, code, Some(place), op_floor(first, second))
}

/// Pops dividend and divisor and pushes the quotient rounded up; fails at 0.
pub fn ceil<H: Heap>(run: &mut Runner<H>, code: &Code, place: u32) -> Result<Did, Memory>
    requires ready { Ready (view_of H.state run.old) }
    requires inner { place_of run.old.thread < 4294967295 }
    ensures { IfOk result (λ d. Comes (acts code.now (op.Ceil place)) d (view_of H.state run.old)
        (view_of H.state run.new)) }
{
    let Some((first, second)) = pop_two(&mut run.thread) else {
        return Ok(Did::Over(Ending::Stuck));
    };
    answer(run, code, Some(place), op_ceil(first, second))
}

/// Pops dividend and divisor and pushes the remainder; fails at 0.
pub fn modulo<H: Heap>(run: &mut Runner<H>, code: &Code) -> Result<Did, Memory>
    requires ready { Ready (view_of H.state run.old) }
    requires inner { place_of run.old.thread < 4294967295 }
    ensures { IfOk result (λ d. Comes (acts code.now op.Mod) d (view_of H.state run.old)
        (view_of H.state run.new)) }
{
    let Some((first, second)) = pop_two(&mut run.thread) else {
        return Ok(Did::Over(Ending::Stuck));
    };
    answer(run, code, None, op_mod(first, second))
}

/// Pops two ints and pushes the first where it is below the second; fails otherwise.
pub fn less<H: Heap>(run: &mut Runner<H>, code: &Code) -> Result<Did, Memory>
    requires ready { Ready (view_of H.state run.old) }
    requires inner { place_of run.old.thread < 4294967295 }
    ensures { IfOk result (λ d. Comes (acts code.now op.Lt) d (view_of H.state run.old)
        (view_of H.state run.new)) }
{
    let Some((first, second)) = pop_two(&mut run.thread) else {
        return Ok(Did::Over(Ending::Stuck));
    };
    answer(run, code, None, op_lt(first, second))
}

/// Pops two ints and pushes the first where it is not above the second; fails otherwise.
pub fn at_most<H: Heap>(run: &mut Runner<H>, code: &Code) -> Result<Did, Memory>
    requires ready { Ready (view_of H.state run.old) }
    requires inner { place_of run.old.thread < 4294967295 }
    ensures { IfOk result (λ d. Comes (acts code.now op.Le) d (view_of H.state run.old)
        (view_of H.state run.new)) }
{
    let Some((first, second)) = pop_two(&mut run.thread) else {
        return Ok(Did::Over(Ending::Stuck));
    };
    answer(run, code, None, op_le(first, second))
}

/// Pops two ints and pushes the first where it is above the second; fails otherwise.
pub fn greater<H: Heap>(run: &mut Runner<H>, code: &Code) -> Result<Did, Memory>
    requires ready { Ready (view_of H.state run.old) }
    requires inner { place_of run.old.thread < 4294967295 }
    ensures { IfOk result (λ d. Comes (acts code.now op.Gt) d (view_of H.state run.old)
        (view_of H.state run.new)) }
{
    let Some((first, second)) = pop_two(&mut run.thread) else {
        return Ok(Did::Over(Ending::Stuck));
    };
    answer(run, code, None, op_gt(first, second))
}

/// Pops two ints and pushes the first where it is not below the second; fails otherwise.
pub fn at_least<H: Heap>(run: &mut Runner<H>, code: &Code) -> Result<Did, Memory>
    requires ready { Ready (view_of H.state run.old) }
    requires inner { place_of run.old.thread < 4294967295 }
    ensures { IfOk result (λ d. Comes (acts code.now op.Ge) d (view_of H.state run.old)
        (view_of H.state run.new)) }
{
    let Some((first, second)) = pop_two(&mut run.thread) else {
        return Ok(Did::Over(Ending::Stuck));
    };
    answer(run, code, None, op_ge(first, second))
}

/// Pops an int and pushes it with the other sign, or an error at the place of this number.
pub fn negate<H: Heap>(run: &mut Runner<H>, code: &Code, place: u32) -> Result<Did, Memory>
    requires ready { Ready (view_of H.state run.old) }
    requires inner { place_of run.old.thread < 4294967295 }
    ensures { IfOk result (λ d. Comes (acts code.now (op.Neg place)) d (view_of H.state run.old)
        (view_of H.state run.new)) }
{
    let Some(value) = run.thread.pop() else {
        return Ok(Did::Over(Ending::Stuck));
    };
    answer(run, code, Some(place), op_neg(value))
}
