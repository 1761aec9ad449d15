//! Lists of calls, which do the same to all implementations.

ghost use Rattle.std.specs.Prelude.{◌≡◌, OnOk, OnErr};
ghost use Rattle.sim_clock.specs.Calls.{IsAllowed, AllAllowed, AfterSome, after, after_all};

use crate::waits::{Wait, Waits};
use verse_base::refusals::Memory;

/// A call that changes waits.
#[derive(Clone, Copy, Debug, PartialEq, Eq)]
pub enum Call {
    Add(Wait),
    /// The number of the wait.
    Remove(u64),
    /// The cell of the event, the number of the signal, and the moment.
    WakeEvent(u32, u64, u64),
    /// The task, and the moment.
    WakeTask(u32, u64),
}

/// Makes calls one after another, up to the first that has no memory. They do the same to the waits
/// of every implementation. Each call may be made when its turn comes.
pub fn run<W: Waits>(waits: &mut W, calls: &[Call]) -> Result<(), Memory>
    requires { AllAllowed calls.now (W.pending waits.old) }
    ensures all { OnOk result (W.pending waits.new ≡ after_all calls.now (W.pending waits.old)) }
    ensures some { OnErr result (AfterSome calls.now (W.pending waits.old) (W.pending waits.new)) }
{
    'calls: for call in calls {
        apply(waits, *call)?;
    }
    Ok(())
}

fn apply<W: Waits>(waits: &mut W, call: Call) -> Result<(), Memory>
    requires { IsAllowed call (W.pending waits.old) }
    ensures ok { OnOk result (W.pending waits.new ≡ after call (W.pending waits.old)) }
    ensures err { OnErr result (W.pending waits.new ≡ W.pending waits.old) }
{
    match call {
        Call::Add(wait) => waits.add(wait)?,
        Call::Remove(number) => waits.remove(number),
        Call::WakeEvent(cell, signal, now) => waits.wake_event(cell, signal, now),
        Call::WakeTask(task, now) => waits.wake_task(task, now),
    }
    Ok(())
}
