//! Frames that end.

ghost use Rattle.std.specs.Prelude.{◌≡◌, ◌<◌, IfOk};
ghost use Rattle.verse_code.specs.declared.codes.Code.{Code};
ghost use Rattle.verse_code.specs.declared.operations.Op.TheVariants as op;
ghost use Rattle.vm_frames.specs.Framed.{place_of};
ghost use Rattle.vm_running.specs.Views.{Ready};
ghost use Rattle.vm_running.specs.Runners.{view_of};
ghost use Rattle.vm_running.specs.Doings.{acts};
ghost use Rattle.vm_exec_tasks.specs.Asking.{Asks};
ghost use Rattle.vm_exec_tasks.specs.Leaving.{Leaves};

use crate::asked::{Asked, Ended};
use tx_heap::heaps::Heap;
use verse_value::runs::Ending;
use vm_frames::threads::GONE;
use vm_running::moves::go;
use vm_running::runners::{Did, Runner};

/// Pops the result and leaves the frame. Takes no memory.
pub fn give_back<H: Heap>(run: &mut Runner<H>) -> Asked
    requires ready { Ready (view_of H.state run.old) }
    ensures asks { (c : Code) → Asks (acts c op.Return) result (view_of H.state run.old)
        (view_of H.state run.new) }
    ensures leaves { Leaves result (view_of H.state run.old) (view_of H.state run.new) }
{
    let Some(value) = run.thread.pop() else {
        return Asked::Nothing(Did::Over(Ending::Stuck));
    };
    if !run.thread.is_clean() {
        return Asked::Nothing(Did::Over(Ending::Stuck));
    }
    let born = run.thread.born();
    let Some(last) = run.thread.leave() else {
        return Asked::Nothing(Did::Over(Ending::Stuck));
    };
    if last {
        return Asked::Finish(Ended { born, value });
    }
    Asked::Return(Ended { born, value })
}

/// Pops the result; the arm or the task behind is over. Takes no memory.
pub fn end_part<H: Heap>(run: &mut Runner<H>) -> Asked
    requires ready { Ready (view_of H.state run.old) }
    ensures asks { (c : Code) → Asks (acts c op.ArmEnd) result (view_of H.state run.old)
        (view_of H.state run.new) }
    ensures leaves { Leaves result (view_of H.state run.old) (view_of H.state run.new) }
{
    let Some(value) = run.thread.pop() else {
        return Asked::Nothing(Did::Over(Ending::Stuck));
    };
    if !run.thread.is_clean() {
        return Asked::Nothing(Did::Over(Ending::Stuck));
    }
    let born = run.thread.born();
    let Some(last) = run.thread.leave() else {
        return Asked::Nothing(Did::Over(Ending::Stuck));
    };
    if !last {
        return Asked::Nothing(Did::Over(Ending::Stuck));
    }
    Asked::Close(Ended { born, value })
}

/// A deferred block is over: the frame goes back to where it was, or is being cancelled. Takes no
/// memory.
pub fn end_block<H: Heap>(run: &mut Runner<H>) -> Asked
    requires ready { Ready (view_of H.state run.old) }
    ensures asks { (c : Code) → Asks (acts c op.DeferEnd) result (view_of H.state run.old)
        (view_of H.state run.new) }
    ensures leaves { Leaves result (view_of H.state run.old) (view_of H.state run.new) }
{
    let Some(place) = run.thread.end_defer() else {
        return Asked::Nothing(Did::Over(Ending::Stuck));
    };
    if place == GONE {
        return Asked::Clear;
    }
    Asked::Nothing(go(run, place))
}
