//! Values that are pushed, and values in locals.

ghost use Rattle.std.specs.Prelude.{◌<◌, ◌≤◌, IfOk};
ghost use Rattle.verse_code.specs.declared.operations.Op.TheVariants as op;
ghost use Rattle.vm_frames.specs.Framed.{place_of};
ghost use Rattle.vm_running.specs.Views.{Ready};
ghost use Rattle.vm_running.specs.Runners.{view_of};
ghost use Rattle.vm_running.specs.Doings.{acts};
ghost use Rattle.vm_running.specs.Comes.{Comes};
ghost use Rattle.verse_code.specs.declared.codes.Code.{Code};

use std::alloc::Global;
use tx_heap::heaps::Heap;
use verse_base::refusals::Memory;
use verse_code::codes::Code;
use verse_value::runs::Ending;
use verse_value::values::Value;
use vm_ops::texts::op_text;
use vm_running::answering::answer;
use vm_running::moves::{go_on, push_on};
use vm_running::runners::{Did, Runner};

/// Pushes the char of this code.
pub fn char<H: Heap>(run: &mut Runner<H>, code: u32) -> Result<Did, Memory>
    requires ready { Ready (view_of H.state run.old) }
    requires inner { place_of run.old.thread < 4294967295 }
    requires char { code ≤ 255 }
    ensures { (c : Code) → IfOk result
        (λ d. Comes (acts c (op.Char code)) d (view_of H.state run.old) (view_of H.state run.new)) }
{
    push_on(run, Value::Char(code as u8))
}

/// Pushes the array of the chars of the text of this number.
pub fn text<H: Heap>(
    alloc: Global,
    run: &mut Runner<H>,
    code: &Code,
    text: u32,
) -> Result<Did, Memory>
    requires ready { Ready (view_of H.state run.old) }
    requires inner { place_of run.old.thread < 4294967295 }
    ensures { IfOk result (λ d. Comes (acts code.now (op.Text text)) d (view_of H.state run.old)
        (view_of H.state run.new)) }
{
    let Some(bytes) = code.texts.get(text as usize) else {
        return Ok(Did::Over(Ending::Stuck));
    };
    answer(run, code, None, op_text(alloc, bytes.as_slice()))
}

/// Pushes a copy of the local.
pub fn get<H: Heap>(alloc: Global, run: &mut Runner<H>, local: u32) -> Result<Did, Memory>
    requires ready { Ready (view_of H.state run.old) }
    requires inner { place_of run.old.thread < 4294967295 }
    ensures { (c : Code) → IfOk result
        (λ d. Comes (acts c (op.Get local)) d (view_of H.state run.old) (view_of H.state run.new)) }
{
    let Some(value) = run.thread.local(local) else {
        return Ok(Did::Over(Ending::Stuck));
    };
    let copy = value.copy(alloc)?;
    push_on(run, copy)
}

/// Pops a value into the local. Takes no memory.
pub fn put<H: Heap>(run: &mut Runner<H>, local: u32) -> Did
    requires ready { Ready (view_of H.state run.old) }
    requires inner { place_of run.old.thread < 4294967295 }
    ensures { (c : Code) → Comes (acts c (op.Put local)) result (view_of H.state run.old)
        (view_of H.state run.new) }
{
    let Some(value) = run.thread.pop() else {
        return Did::Over(Ending::Stuck);
    };
    if !run.thread.has_local(local as usize) {
        return Did::Over(Ending::Stuck);
    }
    let _ = run.thread.put_local(local as usize, value);
    go_on(run)
}

/// Pops a value. Takes no memory.
pub fn discard<H: Heap>(run: &mut Runner<H>) -> Did
    requires ready { Ready (view_of H.state run.old) }
    requires inner { place_of run.old.thread < 4294967295 }
    ensures { (c : Code) → Comes (acts c op.Drop) result (view_of H.state run.old)
        (view_of H.state run.new) }
{
    let Some(_value) = run.thread.pop() else {
        return Did::Over(Ending::Stuck);
    };
    go_on(run)
}
