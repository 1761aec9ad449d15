//! Tasks that begin.

ghost use Rattle.std.specs.Prelude.{◌≡◌, ◌<◌, ◌≤◌, IfOk, option_map, slice_get};
ghost use Rattle.verse_code.specs.Validity.{Valid};
ghost use Rattle.verse_code.specs.declared.codes.Code.{Code};
ghost use Rattle.verse_code.specs.declared.operations.Op.TheVariants as op;
ghost use Rattle.verse_code_machine.specs.Acts.{labels, label_of};
ghost use Rattle.vm_frames.specs.Framed.{place_of};
ghost use Rattle.vm_running.specs.Views.{Ready};
ghost use Rattle.vm_running.specs.Runners.{view_of};
ghost use Rattle.vm_running.specs.Doings.{acts};
ghost use Rattle.vm_exec_tasks.specs.Asking.{Asks};
ghost use Rattle.vm_exec_tasks.specs.Leaving.{Leaves};

use crate::asked::{Arms, Asked, Call};
use crate::going::{go_next, go_to};
use std::alloc::Global;
use tx_heap::heaps::Heap;
use verse_base::refusals::Memory;
use verse_code::codes::Code;
use verse_code::operations::Op;
use verse_value::runs::Ending;
use vm_exec_calls::methods::chosen;
use vm_running::runners::{Did, Runner};

/// Pops the arguments of the function of this number; a task begins with a call of it.
pub fn spawn<H: Heap>(
    alloc: Global,
    run: &mut Runner<H>,
    code: &Code,
    func: u32,
) -> Result<Asked, Memory>
    requires ready { Ready (view_of H.state run.old) }
    requires inner { place_of run.old.thread < 4294967295 }
    requires valid { Valid code.now }
    ensures asks { IfOk result (λ k. Asks (acts code.now (op.Spawn func)) k
        (view_of H.state run.old) (view_of H.state run.new)) }
    ensures leaves { IfOk result
        (λ k. Leaves k (view_of H.state run.old) (view_of H.state run.new)) }
{
    if !run.thread.is_free() {
        return Ok(Asked::Nothing(Did::Over(Ending::Stuck)));
    }
    let Some(func) = code.functions.get(func as usize) else {
        return Ok(Asked::Nothing(Did::Over(Ending::Stuck)));
    };
    let Some(args) = run.thread.pop_many(alloc, func.params as u64)? else {
        return Ok(Asked::Nothing(Did::Over(Ending::Stuck)));
    };
    go_next(&mut run.thread);
    Ok(Asked::Spawn(Call { func: *func, args }))
}

/// Pops so many arguments and an object; a task begins with a call of the method of this number of
/// the object's class.
pub fn spawn_method<H: Heap>(
    alloc: Global,
    run: &mut Runner<H>,
    code: &Code,
    method: u32,
    count: u32,
) -> Result<Asked, Memory>
    requires ready { Ready (view_of H.state run.old) }
    requires inner { place_of run.old.thread < 4294967295 }
    requires valid { Valid code.now }
    ensures asks { IfOk result (λ k. Asks (acts code.now (op.SpawnMethod method count)) k
        (view_of H.state run.old) (view_of H.state run.new)) }
    ensures leaves { IfOk result
        (λ k. Leaves k (view_of H.state run.old) (view_of H.state run.new)) }
{
    if !run.thread.is_free() {
        return Ok(Asked::Nothing(Did::Over(Ending::Stuck)));
    }
    let Some(args) = run.thread.pop_many(alloc, count as u64 + 1)? else {
        return Ok(Asked::Nothing(Did::Over(Ending::Stuck)));
    };
    let Some(func) = chosen(&mut run.heap, code, method, count, args.as_slice()) else {
        return Ok(Asked::Nothing(Did::Over(Ending::Stuck)));
    };
    go_next(&mut run.thread);
    Ok(Asked::Spawn(Call { func, args }))
}

/// A task behind begins at the next place, with a copy of the locals, and the task goes on at the
/// label. Takes no memory.
pub fn branch<H: Heap>(run: &mut Runner<H>, label: u32) -> Asked
    requires ready { Ready (view_of H.state run.old) }
    requires inner { place_of run.old.thread < 4294967295 }
    ensures asks { (c : Code) → Asks (acts c (op.Branch label)) result (view_of H.state run.old)
        (view_of H.state run.new) }
    ensures leaves { Leaves result (view_of H.state run.old) (view_of H.state run.new) }
{
    if !run.thread.is_free() {
        return Asked::Nothing(Did::Over(Ending::Stuck));
    }
    let body = run.thread.place() + 1;
    go_to(&mut run.thread, label);
    Asked::Branch(body)
}

/// The arms of the operations that follow begin, and the task waits behind them.
pub fn begin_arms<H: Heap>(
    alloc: Global,
    run: &mut Runner<H>,
    code: &Code,
    group: Group,
) -> Result<Asked, Memory>
    requires ready { Ready (view_of H.state run.old) }
    requires inner { place_of run.old.thread < 4294967295 }
    requires valid { Valid code.now }
    ensures asks { IfOk result (λ k.
        Asks (acts code.now (op.Group group.kind group.arms group.place)) k
        (view_of H.state run.old) (view_of H.state run.new)) }
    ensures leaves { IfOk result
        (λ k. Leaves k (view_of H.state run.old) (view_of H.state run.new)) }
{
    if !run.thread.is_free() {
        return Ok(Asked::Nothing(Did::Over(Ending::Stuck)));
    }
    let Some(place) = code.places.get(group.place as usize) else {
        return Ok(Asked::Nothing(Did::Over(Ending::Stuck)));
    };
    let first = run.thread.place() as usize + 1;
    let Some(labels) = labels_at(alloc, code, first, group.arms)? else {
        return Ok(Asked::Nothing(Did::Over(Ending::Stuck)));
    };
    if labels.is_empty() {
        return Ok(Asked::Nothing(Did::Over(Ending::Stuck)));
    }
    go_to(&mut run.thread, (first + labels.len()) as u32);
    Ok(Asked::Arms(Arms {
        kind: group.kind,
        place: *place,
        labels,
    }))
}

/// The kind of a group, how many arms it has, and the number of the place of its error.
#[derive(Clone, Copy, Debug, PartialEq, Eq)]
pub struct Group {
    pub kind: u32,
    pub arms: u32,
    pub place: u32,
}

// Where so many arms begin, by the operations from a place on; None where one of these is no arm.
fn labels_at(
    alloc: Global,
    code: &Code,
    first: usize,
    count: u32,
) -> Result<Option<Vec<u32>>, Memory>
    requires { first ≤ 4294967296 }
    ensures { IfOk result (λ o. option_map (λ ls. ls.items) o ≡ labels code.now.ops first count) }
{
    let mut starts = Vec::new(alloc);
    'arms: for arm in 0..count as usize {
        let Some(label) = arm_at(code, first + arm) else {
            return Ok(None);
        };
        starts.push(label)?;
    }
    Ok(Some(starts))
}

// Where the arm of the operation at this place begins; None where that is no arm.
fn arm_at(code: &Code, place: usize) -> Option<u32>
    ensures { result ≡ label_of (slice_get code.now.ops place) }
{
    match code.ops.get(place) {
        Some(Op::Arm(label)) => Some(*label),
        _ => None,
    }
}
