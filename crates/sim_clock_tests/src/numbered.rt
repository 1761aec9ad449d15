//! Waits that draw their numbers in turn.

ghost use Rattle.std.specs.Prelude.{◌≡◌, [], IsTrue};
ghost use Rattle.sim_clock_tests.specs.Above.{is_above_all};

use sim_clock::waits::{Wait, WaitKind, Waits};
use verse_base::refusals::Memory;

/// Waits, and the number of the next one.
#[derive(Drop)]
pub struct Numbered<W: Waits> {
    waits: W,
    next: u64,
    ghost above: { IsTrue (is_above_all next (W.pending waits)) },
}

#[tactic(auto, using(crate::proofs::RuleSets::of_new))]
impl<W: Waits> Numbered<W> {
    /// Takes waits that are none yet.
    pub fn new(waits: W) -> Numbered<W>
        requires { W.pending waits ≡ [] }
    {
        Numbered { waits, next: 0 }
    }

    pub fn waits(&self) -> &W {
        &self.waits
    }

    /// Adds a wait, whose task is 100 above its number. None where there are no numbers left.
    pub fn add(&mut self, kind: WaitKind) -> Result<Option<u64>, Memory> {
        let number = self.next;
        let Some(next) = number.checked_add(1) else {
            return Ok(None);
        };
        let task = (number as usize).saturating_add(100);
        self.waits.add(Wait { number, task, kind })?;
        self.next = next;
        Ok(Some(number))
    }

    pub fn remove(&mut self, number: u64) {
        self.waits.remove(number);
    }

    pub fn wake_event(&mut self, cell: u32, signal: u64, now: u64) {
        self.waits.wake_event(cell, signal, now);
    }

    pub fn wake_task(&mut self, task: u32, now: u64) {
        self.waits.wake_task(task, now);
    }
}
