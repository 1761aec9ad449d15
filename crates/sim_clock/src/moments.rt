//! When one wait is due, and which of two is due first.

ghost use Rattle.std.specs.Prelude.{◌≡◌, ◌↔◌, IsTrue};
ghost use Rattle.sim_clock.specs.Pending.{given, waits_alike, woken_one, due_of, comes_before};
ghost use Rattle.sim_clock.specs.Pending.{earlier};

use crate::waits::{Due, Pending, WaitKind, Wake};

/// The moment that a wait has from the start.
pub fn given(kind: WaitKind) -> Option<Wake>
    ensures { result ≡ given kind }
{
    match kind {
        WaitKind::At(at) => Some(Wake { at, cause: 0 }),
        WaitKind::Never | WaitKind::Task(_) | WaitKind::Event(_) => None,
    }
}

/// Whether both wait for the end of one task, or for signals of one event.
pub fn waits_alike(left: WaitKind, right: WaitKind) -> bool
    ensures { result ≡ waits_alike left right }
{
    match (left, right) {
        (WaitKind::Task(a), WaitKind::Task(b)) => a == b,
        (WaitKind::Event(a), WaitKind::Event(b)) => a == b,
        _ => false,
    }
}

/// The wait, woken if it waits for this.
pub fn woken_one(kind: WaitKind, wake: Wake, pending: Pending) -> Pending
    ensures { result ≡ woken_one kind wake pending }
{
    if !waits_alike(pending.wait.kind, kind) {
        return pending;
    }
    Pending {
        wait: pending.wait,
        wake: Some(pending.wake.unwrap_or(wake)),
    }
}

/// When the wait is due.
pub fn due_of(pending: Pending) -> Option<Due>
    ensures { result ≡ due_of pending }
{
    let Pending { wait, wake } = pending;
    let Wake { at, cause } = wake?;
    Some(Due {
        at,
        number: wait.number,
        task: wait.task,
        cause,
    })
}

fn comes_before(left: Due, right: Due) -> bool
    ensures { result ≡ comes_before left right }
{
    left.at < right.at || (left.at == right.at && left.number < right.number)
}

/// The one that is due first.
pub fn earlier(left: Option<Due>, right: Option<Due>) -> Option<Due>
    ensures { result ≡ earlier left right }
{
    match (left, right) {
        (Some(d), Some(e)) => Some(if comes_before(e, d) { e } else { d }),
        (None, _) => right,
        (_, None) => left,
    }
}
