//! The start of a run, and its turns.

ghost use Rattle.std.specs.Prelude.{◌≡◌, ◌≤◌, ℕ, List, [], IfOk, OnOk, OnErr, IsErrOf};
ghost use Rattle.verse_outside.specs.Causes.{Rose};
ghost use Rattle.verse_outside.specs.Held.{TookPrefix, with_more};
ghost use Rattle.trace_buf.specs.Trace.{drained, outside, printed};
ghost use Rattle.verse_code.specs.Validity.{Valid};
ghost use Rattle.verse_value.specs.Runs.{Line};
ghost use Rattle.vm_run.specs.declared.machines.Phase.TheVariants as phase;
ghost use Rattle.vm_run.specs.declared.turns.TurnFault.TheVariants as fault;
ghost use Rattle.vm_run.specs.Standing.{Holds, At, Belongs};
ghost use Rattle.vm_run.specs.Origins.{Origin, stage_after};
ghost use Rattle.vm_run.specs.Reaching.{ended_in};
ghost use Rattle.vm_run.specs.Turning.{lines_after, Turned, TookPart, TurnedTo, Ran};

use crate::laws::runs_hold;
use crate::machines::{Phase, Vm};
use crate::stages::{begin, go};
use sim_clock::waits::Waits;
use std::mem;
use trace_buf::buffers::TraceBuf;
use tx_heap::heaps::Heap;
use verse_base::refusals::Memory;
use verse_code::codes::Code;
use verse_outside::sinks::{Failed, Sink};
use verse_value::runs::Ending;
use verse_value::values::Value;

/// The start, a turn for each step that a run may have, and the one that ends it.
const MOST_CALLS: u64 = 100_000_002;

/// Why a turn was not taken, or its lines were not written.
#[derive(Clone, Copy, Debug, PartialEq, Eq)]
pub enum TurnFault {
    /// There was no memory.
    Memory,
    /// The sink failed.
    Failed,
}

impl From<Memory> for TurnFault {
    ghost from_gives = { λ _ e. e ≡ fault.Memory };

    fn from(_error: Memory) -> TurnFault {
        TurnFault::Memory
    }
}

impl From<Failed> for TurnFault {
    ghost from_gives = { λ _ e. e ≡ fault.Failed };

    fn from(_error: Failed) -> TurnFault {
        TurnFault::Failed
    }
}

/// In each call the code is the one of which the machine was made.
impl<H: Heap + Drop, W: Waits + Drop> Vm<H, W> {
    /// Starts `Main`, or takes one turn. The ending where the run is over, and then each later call
    /// answers it again. After want of memory each later call answers want of memory.
    pub fn turn(&mut self, code: &Code) -> Result<Option<Ending>, Memory>
        requires valid { Valid code.now }
        requires belongs { Belongs H.state W.pending code.now self.old }
        ensures turned { (origin : Origin) (steps until k : ℕ) (past : List Line) →
            At H.state W.pending code.now origin steps until k past self.old →
            IfOk result (λ o. Turned H.state W.pending code.now origin steps until k past o
            self.new) }
        ensures belongs { Belongs H.state W.pending code.now self.new }
        ensures lost { OnErr result (self.new.phase ≡ phase.Lost) }
        ensures still { self.old.phase ≡ phase.Lost → OnOk result ⊥ }
    {
        runs_hold();
        match self.advance(code) {
            Ok(phase) => {
                self.phase = phase;
                Ok(ending_of(phase))
            }
            Err(Memory) => {
                self.phase = Phase::Lost;
                Err(Memory)
            }
        }
    }

    /// Starts `Main`, or takes one turn; the phase stays to be changed.
    fn advance(&mut self, code: &Code) -> Result<Phase, Memory>
        requires valid { Valid code.now }
        requires belongs { Belongs H.state W.pending code.now self.old }
        ensures reached { (origin : Origin) (steps until k : ℕ) (past : List Line) →
            At H.state W.pending code.now origin steps until k past self.old →
            IfOk result (λ p. Holds H.state W.pending (stage_after code.now origin steps until k)
            past (record self.new { phase = p })) }
        ensures bounds { self.new.bounds ≡ self.old.bounds }
        ensures still { self.old.phase ≡ phase.Lost → OnOk result ⊥ }
    {
        runs_hold();
        match self.phase {
            Phase::Unbegun => {
                let inputs = mem::replace(&mut self.inputs, Value::Unit);
                begin(
                    &mut self.run,
                    &mut self.tasks,
                    code,
                    inputs,
                    self.bounds.steps,
                )
            }
            Phase::Between => go(&mut self.run, &mut self.tasks, code, self.bounds),
            Phase::Ended(_) => Ok(self.phase),
            Phase::Lost => Err(Memory),
        }
    }

    /// Takes one turn as `turn` does, and then drains the trace. After `Memory` nothing was taken
    /// in this call. `Failed` comes only where the count of the sink rose, and then a prefix was
    /// taken.
    pub fn turn_to<S: Sink>(
        &mut self,
        code: &Code,
        out: &mut S,
    ) -> Result<Option<Ending>, TurnFault>
        requires valid { Valid code.now }
        requires belongs { Belongs H.state W.pending code.now self.old }
        ensures turned { (origin : Origin) (steps until k : ℕ) (past : List Line) →
            At H.state W.pending code.now origin steps until k past self.old →
            IfOk result (λ o. TurnedTo H.state W.pending code.now origin steps until k past o
            (S.taken out.old) (S.taken out.new) self.new) }
        ensures kept { OnOk result (self.new.run.trace.kept ≡ []) }
        ensures part { (origin : Origin) (steps until k : ℕ) (past : List Line) →
            At H.state W.pending code.now origin steps until k past self.old →
            IsErrOf result fault.Failed →
            TookPart past (lines_after code.now origin steps until k) (S.taken out.old)
            (S.taken out.new) }
        ensures failed { IsErrOf result fault.Failed → Rose (S.faults out.old) (S.faults out.new) }
        ensures later { S.faults out.old ≤ S.faults out.new }
        ensures memory { IsErrOf result fault.Memory → S.taken out.new ≡ S.taken out.old }
        ensures lost { IsErrOf result fault.Memory → self.new.phase ≡ phase.Lost }
        ensures belongs { Belongs H.state W.pending code.now self.new }
        ensures still { self.old.phase ≡ phase.Lost → IsErrOf result fault.Memory }
    {
        let ending = self.turn(code)?;
        drain(&mut self.run.trace, out)?;
        Ok(ending)
    }

    /// Takes turns to the end.
    pub fn run(&mut self, code: &Code) -> Result<Ending, Memory>
        requires valid { Valid code.now }
        requires belongs { Belongs H.state W.pending code.now self.old }
        ensures ran { (origin : Origin) (steps until k : ℕ) (past : List Line) →
            At H.state W.pending code.now origin steps until k past self.old →
            IfOk result (λ e. Ran H.state W.pending code.now origin steps until past e self.new) }
        ensures belongs { Belongs H.state W.pending code.now self.new }
        ensures lost { OnErr result (self.new.phase ≡ phase.Lost) }
        ensures still { self.old.phase ≡ phase.Lost → OnOk result ⊥ }
    {
        runs_hold();
        'turns: for _turn in 0..MOST_CALLS {
            if let Some(ending) = self.turn(code)? {
                return Ok(ending);
            }
        }
        unreachable!()
    }
}

/// The ending of a run that is over.
fn ending_of(phase: Phase) -> Option<Ending>
    ensures { result ≡ ended_in phase }
{
    match phase {
        Phase::Ended(ending) => Some(ending),
        _ => None,
    }
}

/// The lines of a trace without open marks go to a sink. Where there are none nothing is done: the
/// buffer through which lines are written is cleared each time.
#[tactic(auto, using(crate::proofs::Draining::none_drained, crate::proofs::Draining::none_taken))]
fn drain<S: Sink>(trace: &mut TraceBuf, out: &mut S) -> Result<(), Failed>
    requires bare { trace.old.marks ≡ [] }
    ensures drained { OnOk result (trace.new ≡ drained trace.old) }
    ensures written { OnOk result (S.taken out.new ≡ with_more (S.taken out.old)
        (printed (outside trace.old.kept trace.old.marks))) }
    ensures part { OnErr result (TookPrefix (S.taken out.old)
        (printed (outside trace.old.kept trace.old.marks)) (S.taken out.new)) }
    ensures kept { OnErr result (trace.new ≡ trace.old) }
    ensures later { S.faults out.old ≤ S.faults out.new }
    ensures failed { OnErr result (Rose (S.faults out.old) (S.faults out.new)) }
{
    if trace.kept_lines() == 0 {
        return Ok(());
    }
    trace.drain(out)
}
