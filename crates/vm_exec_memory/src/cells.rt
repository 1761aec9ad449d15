//! New cells.

ghost use Rattle.std.specs.Prelude.{◌≡◌, ◌<◌, IfOk, Some, []};
ghost use Rattle.verse_code.specs.declared.operations.Op.TheVariants as op;
ghost use Rattle.verse_value.specs.View.{val_of, vals_of};
ghost use Rattle.vm_frames.specs.Framed.{place_of};
ghost use Rattle.vm_running.specs.Views.{Ready};
ghost use Rattle.vm_running.specs.Runners.{view_of};
ghost use Rattle.vm_running.specs.Doings.{acts, place_in, effects};
ghost use Rattle.vm_running.specs.Comes.{Comes};
ghost use Rattle.vm_exec_memory.specs.Effects.{cell_made, name_of};

use std::alloc::Global;
use tx_heap::heaps::Heap;
use verse_base::refusals::{Kind, Memory};
use verse_code::codes::Code;
use verse_value::runs::{CellKind, Ending};
use verse_value::values::Value;
use vm_running::answering::raise;
use vm_running::moves::push_on;
use vm_running::runners::{Did, Runner};

/// Pops a value, adds a variable with it and pushes the variable, or comes to an error at the place
/// of this number where the store would grow too heavy.
pub fn variable<H: Heap>(
    alloc: Global,
    run: &mut Runner<H>,
    code: &Code,
    place: u32,
) -> Result<Did, Memory>
    requires ready { Ready (view_of H.state run.old) }
    requires inner { place_of run.old.thread < 4294967295 }
    ensures { IfOk result (λ d. Comes (acts code.now (op.New place)) d (view_of H.state run.old)
        (view_of H.state run.new)) }
{
    let Some(value) = run.thread.pop() else {
        return Ok(Did::Over(Ending::Stuck));
    };
    let mut slots = Vec::new(alloc);
    slots.push(value)?;
    add_cell(run, code, CellKind::Var, slots, place)
}

/// Pops all slots of the class, adds an object and pushes it, or comes to an error at the place of
/// this number where the store would grow too heavy.
pub fn object<H: Heap>(
    alloc: Global,
    run: &mut Runner<H>,
    code: &Code,
    class: u32,
    place: u32,
) -> Result<Did, Memory>
    requires ready { Ready (view_of H.state run.old) }
    requires inner { place_of run.old.thread < 4294967295 }
    ensures { IfOk result (λ d. Comes (acts code.now (op.Object class place)) d
        (view_of H.state run.old) (view_of H.state run.new)) }
{
    let Some(of) = code.classes.get(class as usize) else {
        return Ok(Did::Over(Ending::Stuck));
    };
    let Some(slots) = run.thread.pop_many(alloc, of.slots as u64)? else {
        return Ok(Did::Over(Ending::Stuck));
    };
    add_cell(run, code, CellKind::Object(class), slots, place)
}

/// Adds an event and pushes it, or comes to an error at the place of this number where the store
/// would grow too heavy.
pub fn event<H: Heap>(
    alloc: Global,
    run: &mut Runner<H>,
    code: &Code,
    place: u32,
) -> Result<Did, Memory>
    requires ready { Ready (view_of H.state run.old) }
    requires inner { place_of run.old.thread < 4294967295 }
    ensures { IfOk result (λ d. Comes (acts code.now (op.Event place)) d (view_of H.state run.old)
        (view_of H.state run.new)) }
{
    add_cell(run, code, CellKind::Event, Vec::new(alloc), place)
}

// A cell with these slots is added, and the value that names it is pushed.
fn add_cell<H: Heap>(
    run: &mut Runner<H>,
    code: &Code,
    kind: CellKind,
    slots: Vec<Value>,
    place: u32,
) -> Result<Did, Memory>
    requires ready { Ready (view_of H.state run.old) }
    requires inner { place_of run.old.thread < 4294967295 }
    ensures { IfOk result (λ d. Comes
        (effects (place_in code.now (Some place)) (cell_made kind (vals_of slots.items))) d
        (view_of H.state run.old) (view_of H.state run.new)) }
{
    let next = run.thread.place() + 1;
    if !run.thread.permits(next) {
        return Ok(Did::Over(Ending::Stuck));
    }
    if !run.heap.has_room(slots.as_slice()) {
        return Ok(raise(run, code, Some(place), Kind::Store));
    }
    let address = run.heap.alloc_cell(kind, slots)?;
    push_on(run, named(kind, address))
}

// The value that names a cell.
fn named(kind: CellKind, address: u32) -> Value
    ensures { val_of result ≡ name_of kind address }
{
    match kind {
        CellKind::Event => Value::Event(address),
        CellKind::Var | CellKind::Object(_) => Value::Obj(address),
    }
}
