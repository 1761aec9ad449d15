//! What is kept of a machine whose run stopped at its horizon.

ghost use Rattle.std.specs.Prelude.{◌≡◌, ◌≢◌, ℕ, List, IfOk, OnOk, IsErrOf};
ghost use Rattle.verse_code.specs.Validity.{Valid};
ghost use Rattle.verse_value.specs.Runs.{Line};
ghost use Rattle.verse_value.specs.declared.runs.Ending.TheVariants as ending;
ghost use Rattle.run_save_shots.specs.View.{shot_of};
ghost use Rattle.vm_run.specs.declared.machines.Phase.TheVariants as phase;
ghost use Rattle.vm_run.specs.declared.saving.ShotFault.TheVariants as fault;
ghost use Rattle.vm_run.specs.Origins.{Origin};
ghost use Rattle.vm_run.specs.Standing.{At, Belongs};
ghost use Rattle.vm_run.specs.Saving.{CanBeKept, IsShot};

use crate::laws::runs_hold;
use crate::machines::{Phase, Vm};
use run_save_premises::{inputs_fit, texts_are_bytes};
use run_save_shots::shots::Shot;
use run_save_shown::{resumed_run_is_shown, stopped_run_is_shown};
use sim_clock::waits::Waits;
use std::alloc::Global;
use tx_heap::heaps::Heap;
use verse_base::refusals::Memory;
use verse_code::codes::Code;
use verse_value::runs::Ending;
use vm_shot::shooting;

/// Why nothing was kept of a machine.
#[derive(Clone, Copy, Debug, PartialEq, Eq)]
pub enum ShotFault {
    /// There was no memory, or there were more than 4294967296 tasks, or as many arms of a group.
    Memory,
    /// The run had not stopped at its horizon.
    NotStopped,
}

impl From<Memory> for ShotFault {
    ghost from_gives = { λ _ e. e ≡ fault.Memory };

    fn from(_error: Memory) -> ShotFault {
        ShotFault::Memory
    }
}

/// The code is the one of which the machine was made.
impl<H: Heap + Drop, W: Waits + Drop> Vm<H, W> {
    /// What is kept of a run that stopped at its horizon: it spells the state in which the run
    /// stopped, and fits the code. The machine stands as it stood, and can be asked again.
    pub fn shot(&mut self, alloc: Global, code: &Code) -> Result<Shot, ShotFault>
        requires valid { Valid code.now }
        requires belongs { Belongs H.state W.pending code.now self.old }
        ensures kept { (origin : Origin) (steps until k : ℕ) (past : List Line) →
            CanBeKept code.now origin steps until →
            At H.state W.pending code.now origin steps until k past self.old →
            IfOk result (λ x. IsShot code.now origin steps until (shot_of x)) }
        ensures stopped { OnOk result (self.old.phase ≡ phase.Ended ending.Until) }
        ensures not_stopped { IsErrOf result fault.NotStopped →
            self.old.phase ≢ phase.Ended ending.Until }
        ensures at { (origin : Origin) (steps until k : ℕ) (past : List Line) →
            At H.state W.pending code.now origin steps until k past self.old →
            At H.state W.pending code.now origin steps until k past self.new }
        ensures belongs { Belongs H.state W.pending code.now self.new }
    {
        match self.phase {
            Phase::Ended(Ending::Until) => Ok(self.stopped_shot(alloc, code)?),
            _ => Err(ShotFault::NotStopped),
        }
    }

    /// Where the run stopped at its horizon.
    fn stopped_shot(&mut self, alloc: Global, code: &Code) -> Result<Shot, Memory>
        requires valid { Valid code.now }
        requires belongs { Belongs H.state W.pending code.now self.old }
        requires stopped { self.old.phase ≡ phase.Ended ending.Until }
        ensures kept { (origin : Origin) (steps until k : ℕ) (past : List Line) →
            CanBeKept code.now origin steps until →
            At H.state W.pending code.now origin steps until k past self.old →
            IfOk result (λ x. IsShot code.now origin steps until (shot_of x)) }
        ensures at { (origin : Origin) (steps until k : ℕ) (past : List Line) →
            At H.state W.pending code.now origin steps until k past self.old →
            At H.state W.pending code.now origin steps until k past self.new }
        ensures belongs { Belongs H.state W.pending code.now self.new }
    {
        runs_hold();
        inputs_fit();
        texts_are_bytes(code);
        stopped_run_is_shown();
        resumed_run_is_shown();
        shooting::shot(alloc, &mut self.run, &self.tasks, code)
    }
}
