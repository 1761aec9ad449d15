//! Open marks at the end of a run.

ghost use Rattle.std.specs.Prelude.{◌≡◌, [], OnOk};
ghost use Rattle.vm_running.specs.Runners.{view_of};
ghost use Rattle.vm_run.specs.Closing.{Closes};

use tx_heap::heaps::Heap;
use vm_running::runners::Runner;

/// Closes all open marks, and keeps store and trace as they stand. Takes no memory.
pub(crate) fn close<H: Heap>(run: &mut Runner<H>)
    ensures { Closes (view_of H.state run.old) (view_of H.state run.new) }
{
    commit_all(&mut run.heap);
    run.trace.commit_all();
}

fn commit_all<H: Heap>(heap: &mut H)
    ensures cells { (H.state heap.new).cells ≡ (H.state heap.old).cells }
    ensures copies { (H.state heap.new).copies ≡ [] }
{
    'marks: while heap.depth() > 0 {
        heap.commit();
    }
}
