//! Waits in a list, each call of which looks through all of them.

ghost use Rattle.std.specs.Prelude.{◌≡◌, ◌<◌, [], length};
ghost use Rattle.std.specs.List.{remove};
ghost use Rattle.std.specs.Option.{IfSome, IfNone};
ghost use Rattle.sim_clock.specs.Pending.{removed, woken};

use crate::moments::{due_of, earlier, given, woken_one};
use crate::waits::{Due, Pending, Wait, WaitKind, Waits, Wake};
use std::alloc::Global;
use verse_base::refusals::Memory;

/// Waits in a list.
#[derive(Drop)]
pub struct VecWaits {
    pending: Vec<Pending>,
}

impl VecWaits {
    /// No waits. Takes no memory.
    pub fn new(alloc: Global) -> VecWaits
        ensures { result.pending.items ≡ [] }
    {
        VecWaits {
            pending: Vec::new(alloc),
        }
    }

    fn wake(&mut self, kind: WaitKind, wake: Wake)
        ensures { self.new.pending.items ≡ woken kind wake self.old.pending.items }
    {
        for pending in self.pending.iter_mut() {
            *pending = woken_one(kind, wake, *pending);
        }
    }
}

/// Where the wait with this number stands.
fn place_of(all: &[Pending], number: u64) -> Option<usize>
    ensures there { IfSome result (λ at. (at < length all.now) ×
        (removed number all.now ≡ remove all.now at)) }
    ensures nowhere { IfNone result (removed number all.now ≡ all.now) }
{
    for (at, pending) in all.iter().enumerate() {
        if pending.wait.number == number {
            return Some(at);
        }
    }
    None
}

impl Waits for VecWaits {
    ghost pending = { λ w. w.pending.items };

    fn add(&mut self, wait: Wait) -> Result<(), Memory> {
        self.pending.push(Pending {
            wait,
            wake: given(wait.kind),
        })?;
        Ok(())
    }

    fn remove(&mut self, number: u64) {
        if let Some(at) = place_of(&self.pending, number) {
            let _ = self.pending.remove(at);
        }
    }

    fn next(&self) -> Option<Due> {
        let mut found = None;
        for pending in &self.pending {
            found = earlier(found, due_of(*pending));
        }
        found
    }

    fn wake_event(&mut self, cell: u32, signal: u64, now: u64) {
        let wake = Wake {
            at: now,
            cause: signal,
        };
        self.wake(WaitKind::Event(cell), wake);
    }

    fn wake_task(&mut self, task: u32, now: u64) {
        self.wake(WaitKind::Task(task), Wake { at: now, cause: 0 });
    }

    fn len(&self) -> u64 {
        self.pending.len() as u64
    }

    fn wait_of(&self, task: usize) -> Option<Wait> {
        for pending in &self.pending {
            if pending.wait.task == task {
                return Some(pending.wait);
            }
        }
        None
    }
}
