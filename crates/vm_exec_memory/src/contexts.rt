//! Failure contexts.

ghost use Rattle.std.specs.Prelude.{◌≡◌, ◌<◌, IfOk};
ghost use Rattle.verse_code.specs.declared.codes.Code.{Code};
ghost use Rattle.verse_code.specs.declared.operations.Op.TheVariants as op;
ghost use Rattle.vm_frames.specs.Framed.{place_of};
ghost use Rattle.vm_running.specs.Views.{Ready};
ghost use Rattle.vm_running.specs.Runners.{view_of};
ghost use Rattle.vm_running.specs.Doings.{acts};
ghost use Rattle.vm_running.specs.Comes.{Comes};

use tx_heap::heaps::Heap;
use verse_base::refusals::Memory;
use verse_value::runs::Ending;
use vm_running::moves::go_on;
use vm_running::runners::{Did, Runner};

/// Begins a failure context: a handler, with a mark in the store and one in the trace. Its frame
/// goes on above this place and below the label.
pub fn begin_attempt<H: Heap>(run: &mut Runner<H>, label: u32) -> Result<Did, Memory>
    requires ready { Ready (view_of H.state run.old) }
    requires inner { place_of run.old.thread < 4294967295 }
    ensures { (c : Code) → IfOk result
        (λ d. Comes (acts c (op.Try label)) d (view_of H.state run.old) (view_of H.state run.new)) }
{
    let made = run.thread.place();
    run.heap.mark()?;
    run.trace.mark()?;
    run.thread.guard(made, label)?;
    Ok(go_on(run))
}

/// Ends the innermost failure context of the frame, and keeps its writes and lines. Takes no
/// memory.
pub fn commit<H: Heap>(run: &mut Runner<H>) -> Did
    requires ready { Ready (view_of H.state run.old) }
    requires inner { place_of run.old.thread < 4294967295 }
    ensures { (c : Code) → Comes (acts c op.Commit) result (view_of H.state run.old)
        (view_of H.state run.new) }
{
    if !run.thread.release() {
        return Did::Over(Ending::Stuck);
    }
    run.heap.commit();
    run.trace.commit();
    go_on(run)
}

/// Ends the innermost failure context of the frame, and takes its writes and lines back. Takes no
/// memory.
pub fn undo<H: Heap>(run: &mut Runner<H>) -> Did
    requires ready { Ready (view_of H.state run.old) }
    requires inner { place_of run.old.thread < 4294967295 }
    ensures { (c : Code) → Comes (acts c op.Undo) result (view_of H.state run.old)
        (view_of H.state run.new) }
{
    if !run.thread.release() {
        return Did::Over(Ending::Stuck);
    }
    let next = run.thread.place() + 1;
    if !run.thread.go(next) {
        return Did::Over(Ending::Stuck);
    }
    run.heap.rollback();
    run.trace.rollback();
    Did::On
}
