//! What an operation on values answers.

ghost use Rattle.std.specs.Prelude.{◌≡◌, ◌<◌, Option, Some, None, IfOk};
ghost use Rattle.verse_value.specs.Val.{Val};
ghost use Rattle.verse_value.specs.Answer.{Answer};
ghost use Rattle.vm_ops.specs.Answers.{IsAnswerOrMemory, IsFaultOrMemory};
ghost use Rattle.vm_frames.specs.Framed.{place_of};
ghost use Rattle.vm_running.specs.Views.{Ready};
ghost use Rattle.vm_running.specs.Runners.{view_of};
ghost use Rattle.vm_running.specs.Doings.{place_in, answers, raises};
ghost use Rattle.vm_running.specs.Comes.{Comes};

use crate::failing::fail;
use crate::moves::push_on;
use crate::runners::{Did, Runner};
use tx_heap::heaps::Heap;
use verse_base::places::Place;
use verse_base::refusals::{Kind, Memory};
use verse_code::codes::Code;
use verse_value::runs::Ending;
use verse_value::values::Value;
use vm_ops::faults::OpFault;

/// The value is pushed; or a failure, a runtime error at the place of this number, or stuck.
pub fn answer<H: Heap>(
    run: &mut Runner<H>,
    code: &Code,
    place: Option<u32>,
    outcome: Result<Value, OpFault>,
) -> Result<Did, Memory>
    requires ready { Ready (view_of H.state run.old) }
    requires inner { place_of run.old.thread < 4294967295 }
    ensures { (a : Answer Val) → IsAnswerOrMemory a outcome →
        IfOk result (λ d. Comes (answers (place_in code.now place) a) d (view_of H.state run.old)
        (view_of H.state run.new)) }
{
    match outcome {
        Ok(value) => push_on(run, value),
        Err(fault) => refuse(run, code, place, fault),
    }
}

/// A failure, a runtime error at the place of this number, or stuck.
pub fn refuse<H: Heap>(
    run: &mut Runner<H>,
    code: &Code,
    place: Option<u32>,
    fault: OpFault,
) -> Result<Did, Memory>
    requires ready { Ready (view_of H.state run.old) }
    requires inner { place_of run.old.thread < 4294967295 }
    ensures { (a : Answer Val) → IsFaultOrMemory a fault →
        IfOk result (λ d. Comes (answers (place_in code.now place) a) d (view_of H.state run.old)
        (view_of H.state run.new)) }
{
    match fault {
        OpFault::Fail => Ok(fail(run)),
        OpFault::Fault(kind) => Ok(raise(run, code, place, kind)),
        OpFault::Stuck => Ok(Did::Over(Ending::Stuck)),
        OpFault::Memory => Err(Memory),
    }
}

/// A runtime error at the place of this number: stuck where the frame may not go on at its next
/// place, or where there is no such place. Takes no memory.
pub fn raise<H: Heap>(run: &Runner<H>, code: &Code, place: Option<u32>, kind: Kind) -> Did
    requires ready { Ready (view_of H.state run.now) }
    requires inner { place_of run.now.thread < 4294967295 }
    ensures { Comes (raises (place_in code.now place) kind) result (view_of H.state run.now)
        (view_of H.state run.now) }
{
    let next = run.thread.place() + 1;
    if !run.thread.permits(next) {
        return Did::Over(Ending::Stuck);
    }
    match place_at(code, place) {
        Some(place) => Did::Over(Ending::Error(kind, place)),
        None => Did::Over(Ending::Stuck),
    }
}

fn place_at(code: &Code, place: Option<u32>) -> Option<Place>
    ensures { result ≡ place_in code.now place }
{
    code.places.get(place? as usize).copied()
}
