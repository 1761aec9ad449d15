//! A failure.

ghost use Rattle.vm_running.specs.Views.{Ready};
ghost use Rattle.vm_running.specs.Runners.{view_of};
ghost use Rattle.vm_running.specs.Doings.{fails};
ghost use Rattle.vm_running.specs.Comes.{Comes};

use crate::runners::{Did, Runner};
use tx_heap::heaps::Heap;
use verse_value::runs::Ending;

/// Back to the innermost handler of all frames: the frames above are left, the store and the trace
/// become what they were at its mark, and its frame goes on at its label. Stuck, with store and
/// trace as they are, where no frame has a handler, and where another handler of its frame forbids
/// the label. Takes no memory.
pub fn fail<H: Heap>(run: &mut Runner<H>) -> Did
    requires ready { Ready (view_of H.state run.old) }
    ensures { Comes fails result (view_of H.state run.old) (view_of H.state run.new) }
{
    let Some(label) = run.thread.unwind() else {
        return Did::Over(Ending::Stuck);
    };
    if !run.thread.go(label) {
        return Did::Over(Ending::Stuck);
    }
    run.heap.rollback();
    run.trace.rollback();
    Did::On
}
