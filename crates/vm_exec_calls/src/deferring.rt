//! Deferred blocks.

ghost use Rattle.std.specs.Prelude.{◌≡◌, ◌<◌, IfOk};
ghost use Rattle.verse_code.specs.declared.codes.Code.{Code};
ghost use Rattle.verse_code.specs.declared.operations.Op.TheVariants as op;
ghost use Rattle.vm_frames.specs.Framed.{place_of};
ghost use Rattle.vm_running.specs.Views.{Ready};
ghost use Rattle.vm_running.specs.Runners.{view_of};
ghost use Rattle.vm_running.specs.Doings.{acts};
ghost use Rattle.vm_running.specs.Comes.{Comes};

use tx_heap::heaps::Heap;
use verse_base::refusals::Memory;
use verse_value::runs::Ending;
use vm_running::moves::{go, go_on};
use vm_running::runners::{Did, Runner};
use vm_running::spending::spend;

/// Keeps the block at the next place, to be run later, and goes to the label.
pub fn defer<H: Heap>(run: &mut Runner<H>, label: u32) -> Result<Did, Memory>
    requires ready { Ready (view_of H.state run.old) }
    requires inner { place_of run.old.thread < 4294967295 }
    ensures { (c : Code) → IfOk result
        (λ d. Comes (acts c (op.Defer label)) d (view_of H.state run.old)
        (view_of H.state run.new)) }
{
    let block = run.thread.place() + 1;
    run.thread.defer(block)?;
    Ok(go(run, label))
}

/// Where the frame has more deferred blocks than this many: spends a step and begins the last one,
/// which comes back to this place. Goes on otherwise. Takes no memory.
pub fn leave<H: Heap>(run: &mut Runner<H>, count: u32) -> Did
    requires ready { Ready (view_of H.state run.old) }
    requires inner { place_of run.old.thread < 4294967295 }
    ensures { (c : Code) → Comes (acts c (op.Leave count)) result (view_of H.state run.old)
        (view_of H.state run.new) }
{
    let count = count as u64;
    let blocks = run.thread.defers();
    if blocks < count {
        return Did::Over(Ending::Stuck);
    }
    if count < run.thread.kept() {
        return Did::Over(Ending::Stuck);
    }
    if blocks == count {
        return go_on(run);
    }
    let place = run.thread.place();
    let block = run.thread.take_defer(place);
    if !run.thread.go(block) {
        return Did::Over(Ending::Stuck);
    }
    if !spend(run) {
        return Did::Over(Ending::Steps);
    }
    Did::On
}
