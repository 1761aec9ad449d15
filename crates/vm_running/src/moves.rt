//! A frame goes on at a place.

ghost use Rattle.std.specs.Prelude.{◌≡◌, ◌≢◌, ◌<◌, ◌+◌, [], IfOk};
ghost use Rattle.verse_value.specs.View.{val_of};
ghost use Rattle.vm_frames.specs.Framed.{place_of};
ghost use Rattle.vm_running.specs.Views.{Ready};
ghost use Rattle.vm_running.specs.Runners.{view_of};
ghost use Rattle.vm_running.specs.Doings.{goes_to, goes_on, pushes};
ghost use Rattle.vm_running.specs.Comes.{Comes};

use crate::runners::{Did, Runner};
use tx_heap::heaps::Heap;
use verse_base::refusals::Memory;
use verse_value::runs::Ending;
use verse_value::values::Value;

/// At a place: stuck where a handler of the frame forbids it. Takes no memory.
pub fn go<H: Heap>(run: &mut Runner<H>, place: u32) -> Did
    requires ready { Ready (view_of H.state run.old) }
    ensures { Comes (goes_to place) result (view_of H.state run.old) (view_of H.state run.new) }
{
    if run.thread.go(place) {
        Did::On
    } else {
        Did::Over(Ending::Stuck)
    }
}

/// At the next place. Takes no memory.
pub fn go_on<H: Heap>(run: &mut Runner<H>) -> Did
    requires ready { Ready (view_of H.state run.old) }
    requires inner { place_of run.old.thread < 4294967295 }
    ensures { Comes goes_on result (view_of H.state run.old) (view_of H.state run.new) }
{
    let next = run.thread.place() + 1;
    go(run, next)
}

/// At the next place, with one operand more.
pub fn push_on<H: Heap>(run: &mut Runner<H>, value: Value) -> Result<Did, Memory>
    requires ready { Ready (view_of H.state run.old) }
    requires inner { place_of run.old.thread < 4294967295 }
    ensures { IfOk result (λ d. Comes (pushes (val_of value)) d (view_of H.state run.old)
        (view_of H.state run.new)) }
{
    run.thread.push(value)?;
    Ok(go_on(run))
}
