//! A sink in memory.

ghost use Rattle.std.specs.Prelude.{◌≡◌, ◌<◌, ◌≤◌, ◌++◌, ◌∷◌, ◌⊎◌, [], IfOk, IsErr, IsTrue, OnErr};
ghost use Rattle.std.specs.Prelude.{OnOk, Some, length, take};
ghost use Rattle.verse_outside.specs.Causes.{Rose};
ghost use Rattle.verse_outside.specs.Chosen.{counted, is_chosen};
ghost use Rattle.verse_outside.specs.Intake.{Intake, share};

use crate::chosen::fails;
use crate::sinks::{Failed, Sink};
use std::alloc::Global;
use std::marker::Model;
use verse_base::refusals::Memory;

/// Keeps what it takes, up to its room, and tells it. Chosen writes fail.
#[derive(Drop)]
pub struct MemSink {
    taken: Vec<u8>,
    writes: u64,
    failing: Vec<u64>,
    faults: u64,
    room: usize,
    most: usize,
}

impl Model for MemSink {
    ghost use Rattle.verse_outside.specs.Intake.{Intake};

    ghost Value = { Intake };

    ghost use Rattle.verse_outside.specs.IntakeView.{IsReserved, intake_of};

    ghost view = { intake_of };

    ghost invariant = { IsReserved };
}

impl MemSink {
    /// Room for `room` bytes, of which one write takes at most `most`.
    pub fn new(alloc: Global, room: usize, most: usize) -> Result<MemSink, Memory>
        requires { 0 < most }
        ensures { IfOk result (λ s. s ≡
            record { taken = []; writes = 0; failing = []; faults = 0; room = room; most = most }) }
    {
        Ok(MemSink {
            taken: Vec::with_capacity(alloc, room)?,
            writes: 0,
            failing: Vec::new(alloc),
            faults: 0,
            room,
            most,
        })
    }

    /// The write of this number, counted from 0, is to fail.
    pub fn fail_at(&mut self, call: u64) -> Result<(), Memory>
        ensures chosen { OnOk result
            (self.new ≡ record self.old { failing = self.old.failing ++ call ∷ [] }) }
        ensures refused { OnErr result (self.new ≡ self.old) }
    {
        self.failing.push(call)?;
        Ok(())
    }

    /// The bytes taken so far.
    pub fn taken(&self) -> &[u8]
        ensures { result.now ≡ self.now.taken }
    {
        self.taken.as_slice()
    }
}

impl Sink for MemSink {
    ghost taken = { λ s. Some s.taken };

    ghost faults = { λ s. s.faults };

    /// A write that was chosen to fail fails, as does one where the room is full, and no other.
    fn write(&mut self, piece: &[u8]) -> Result<usize, Failed>
        requires { 0 < length piece.now }
        ensures some { IfOk result (λ n. 0 < n) }
        ensures within { IfOk result (λ n. n ≤ length piece.now) }
        ensures amount { IfOk result (λ n. n ≡ share self.old (length piece.now)) }
        ensures ok { IfOk result (λ n. self.new ≡
            record self.old {
              taken = self.old.taken ++ take n piece.now;
              writes =
                  counted self.old.writes;
            }) }
        ensures err { OnErr result (self.new ≡
            record self.old {
              writes = counted self.old.writes;
              faults =
                  counted self.old.faults;
            }) }
        ensures chosen { IsTrue (is_chosen self.old.failing self.old.writes) → IsErr result }
        ensures cause { IsErr result → IsTrue (is_chosen self.old.failing self.old.writes) ⊎
            (share self.old (length piece.now) ≡ 0) }
        ensures failed { OnErr result (Rose self.old.faults self.new.faults) }
        ensures calm { IfOk result (λ _. self.new.faults ≡ self.old.faults) }
        ensures later { self.old.faults ≤ self.new.faults }
    {
        let call = self.writes;
        self.writes = call.saturating_add(1);
        let free = self.room - self.taken.len();
        let count = piece.len().min(self.most).min(free);
        if count == 0 || fails(self.failing.as_slice(), call) {
            self.faults = self.faults.saturating_add(1);
            return Err(Failed);
        }
        match self.taken.extend_from_slice(&piece[..count]) {
            Ok(()) => Ok(count),
            Err(_) => unreachable!(),
        }
    }
}
