//! What is made of several values.

ghost use Rattle.std.specs.Prelude.{◌<◌, IfOk};
ghost use Rattle.verse_code.specs.declared.operations.Op.TheVariants as op;
ghost use Rattle.vm_frames.specs.Framed.{place_of};
ghost use Rattle.vm_running.specs.Views.{Ready};
ghost use Rattle.vm_running.specs.Runners.{view_of};
ghost use Rattle.vm_running.specs.Doings.{acts};
ghost use Rattle.vm_running.specs.Comes.{Comes};
ghost use Rattle.std.specs.Prelude.{◌≡◌};
ghost use Rattle.verse_value.specs.View.{vals_of};
ghost use Rattle.verse_code_machine.specs.Acts.{paired};
ghost use Rattle.vm_ops.specs.Lists.{pairs_of};
ghost use Rattle.vm_exec_values.specs.Pairs.{Turns};

use std::alloc::Global;
use tx_heap::heaps::Heap;
use verse_base::refusals::Memory;
use verse_code::codes::Code;
use verse_value::runs::Ending;
use verse_value::values::Value;
use vm_ops::aggregates::{op_array, op_map, op_tuple};
use vm_ops::texts::op_join;
use vm_running::answering::answer;
use vm_running::runners::{Did, Runner};

/// Pops so many ints, chars and texts and pushes their text, or an error at the place of this
/// number.
pub fn join<H: Heap>(
    alloc: Global,
    run: &mut Runner<H>,
    code: &Code,
    count: u32,
    place: u32,
) -> Result<Did, Memory>
    requires ready { Ready (view_of H.state run.old) }
    requires inner { place_of run.old.thread < 4294967295 }
    ensures { IfOk result (λ d. Comes (acts code.now (op.Join count place)) d
        (view_of H.state run.old) (view_of H.state run.new)) }
{
    let Some(parts) = run.thread.pop_many(alloc, count as u64)? else {
        return Ok(Did::Over(Ending::Stuck));
    };
    answer(run, code, Some(place), op_join(alloc, parts))
}

/// Pops so many values and pushes their array, or an error at the place of this number.
pub fn array<H: Heap>(
    alloc: Global,
    run: &mut Runner<H>,
    code: &Code,
    count: u32,
    place: u32,
) -> Result<Did, Memory>
    requires ready { Ready (view_of H.state run.old) }
    requires inner { place_of run.old.thread < 4294967295 }
    ensures { IfOk result (λ d. Comes (acts code.now (op.Array count place)) d
        (view_of H.state run.old) (view_of H.state run.new)) }
{
    let Some(parts) = run.thread.pop_many(alloc, count as u64)? else {
        return Ok(Did::Over(Ending::Stuck));
    };
    answer(run, code, Some(place), op_array(parts))
}

/// Pops so many values and pushes their tuple, or an error at the place of this number.
pub fn tuple<H: Heap>(
    alloc: Global,
    run: &mut Runner<H>,
    code: &Code,
    count: u32,
    place: u32,
) -> Result<Did, Memory>
    requires ready { Ready (view_of H.state run.old) }
    requires inner { place_of run.old.thread < 4294967295 }
    ensures { IfOk result (λ d. Comes (acts code.now (op.Tuple count place)) d
        (view_of H.state run.old) (view_of H.state run.new)) }
{
    let Some(parts) = run.thread.pop_many(alloc, count as u64)? else {
        return Ok(Did::Over(Ending::Stuck));
    };
    answer(run, code, Some(place), op_tuple(parts))
}

/// Pops so many keys, each with its value, and pushes their map, or an error at the place of this
/// number.
pub fn map<H: Heap>(
    alloc: Global,
    run: &mut Runner<H>,
    code: &Code,
    count: u32,
    place: u32,
) -> Result<Did, Memory>
    requires ready { Ready (view_of H.state run.old) }
    requires inner { place_of run.old.thread < 4294967295 }
    ensures { IfOk result (λ d. Comes (acts code.now (op.Map count place)) d
        (view_of H.state run.old) (view_of H.state run.new)) }
{
    let Some(parts) = run.thread.pop_many(alloc, count as u64 + count as u64)? else {
        return Ok(Did::Over(Ending::Stuck));
    };
    let pairs = in_pairs(alloc, parts)?;
    answer(run, code, Some(place), op_map(alloc, pairs))
}

// Each key with the value behind it; a last key alone is let go.
fn in_pairs(alloc: Global, values: Vec<Value>) -> Result<Vec<(Value, Value)>, Memory>
    ensures { IfOk result (λ pairs. pairs_of pairs.items ≡ paired (vals_of values.items)) }
{
    let mut pairs = Vec::new(alloc);
    let mut key = None;
    'values: for value in values {
        key = with_next(&mut pairs, key, value)?;
    }
    Ok(pairs)
}

// A key, or the value of the key before it.
fn with_next(
    pairs: &mut Vec<(Value, Value)>,
    key: Option<Value>,
    value: Value,
) -> Result<Option<Value>, Memory>
    ensures { IfOk result (Turns pairs.old.items pairs.new.items key value) }
{
    match key {
        Some(key) => {
            pairs.push((key, value))?;
            Ok(None)
        }
        None => Ok(Some(value)),
    }
}
