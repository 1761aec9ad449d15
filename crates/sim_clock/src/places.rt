//! Where a wait stands among others.

ghost use Rattle.std.specs.Prelude.{◌≡◌};
ghost use Rattle.sim_clock.specs.Places.{or_woken, where_of};

use crate::waits::{Pending, WaitKind, Wake};

/// By the moment, or by what is waited for.
#[derive(Clone, Copy)]
pub enum Where {
    /// It has this moment from the start.
    Timed(u64),
    OnEvent(u32),
    OnTask(u32),
    /// It was woken, and has this moment.
    Woken(u64),
    Nowhere,
}

pub fn where_of(pending: Pending) -> Where
    ensures { result ≡ where_of pending }
{
    match pending.wait.kind {
        WaitKind::At(at) => Where::Timed(at),
        WaitKind::Never => Where::Nowhere,
        WaitKind::Task(task) => or_woken(Where::OnTask(task), pending.wake),
        WaitKind::Event(cell) => or_woken(Where::OnEvent(cell), pending.wake),
    }
}

/// What waits for something stands there until it is woken.
fn or_woken(place: Where, wake: Option<Wake>) -> Where
    ensures { result ≡ or_woken place wake }
{
    match wake {
        Some(wake) => Where::Woken(wake.at),
        None => place,
    }
}
