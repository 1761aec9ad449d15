//! A line of the trace.

ghost use Rattle.std.specs.Prelude.{◌≡◌, ◌<◌, IfOk, IfSome, IfNone, option_map, List, ℕ, Some};
ghost use Rattle.std.specs.Prelude.{None};
ghost use Rattle.verse_code.specs.declared.operations.Op.TheVariants as op;
ghost use Rattle.verse_value.specs.View.{val_of};
ghost use Rattle.vm_frames.specs.Framed.{place_of};
ghost use Rattle.vm_running.specs.Views.{Ready};
ghost use Rattle.vm_running.specs.Runners.{view_of};
ghost use Rattle.vm_running.specs.Doings.{acts, place_in};
ghost use Rattle.vm_running.specs.Comes.{Comes};
ghost use Rattle.vm_exec_memory.specs.Effects.{bytes_in, tells};

use std::alloc::Global;
use trace_buf::buffers::LineFault;
use tx_heap::heaps::Heap;
use verse_base::refusals::{Kind, Memory};
use verse_code::codes::Code;
use verse_value::lookups::text_bytes;
use verse_value::runs::Ending;
use verse_value::values::Value;
use vm_running::answering::raise;
use vm_running::moves::push_on;
use vm_running::runners::{Did, Runner};

/// Pops a text, adds a line of its bytes to the trace and pushes unit, or comes to an error at the
/// place of this number where the trace would grow too long.
pub fn print<H: Heap>(
    alloc: Global,
    run: &mut Runner<H>,
    code: &Code,
    place: u32,
) -> Result<Did, Memory>
    requires ready { Ready (view_of H.state run.old) }
    requires inner { place_of run.old.thread < 4294967295 }
    ensures { IfOk result (λ d. Comes (acts code.now (op.Print place)) d (view_of H.state run.old)
        (view_of H.state run.new)) }
{
    let Some(value) = run.thread.pop() else {
        return Ok(Did::Over(Ending::Stuck));
    };
    let Some(bytes) = bytes_of(alloc, &value)? else {
        return Ok(Did::Over(Ending::Stuck));
    };
    tell(run, code, bytes.as_slice(), place)
}

// The bytes of an array of chars.
fn bytes_of(alloc: Global, value: &Value) -> Result<Option<Vec<u8>>, Memory>
    ensures { IfOk result (λ o. option_map (λ bytes. bytes.items) o ≡ bytes_in (val_of value.now)) }
{
    match value {
        Value::Array(parts) => text_bytes(alloc, parts.as_slice()),
        _ => Ok(None),
    }
}

// A line of these bytes.
fn tell<H: Heap>(run: &mut Runner<H>, code: &Code, bytes: &[u8], place: u32) -> Result<Did, Memory>
    requires ready { Ready (view_of H.state run.old) }
    requires inner { place_of run.old.thread < 4294967295 }
    ensures { IfOk result (λ d. Comes (tells (place_in code.now (Some place)) bytes.now) d
        (view_of H.state run.old) (view_of H.state run.new)) }
{
    let next = run.thread.place() + 1;
    if !run.thread.permits(next) {
        return Ok(Did::Over(Ending::Stuck));
    }
    match run.trace.line(run.moment, bytes) {
        Ok(()) => push_on(run, Value::Unit),
        Err(LineFault::Full) => Ok(raise(run, code, Some(place), Kind::Trace)),
        Err(LineFault::Memory) => Err(Memory),
    }
}
