//! What a machine holds.

ghost use Rattle.verse_base.specs.declared.limits.TheConstants.{MOST_NOW, MOST_STEPS};
ghost use Rattle.std.specs.Prelude.{◌≡◌, ◌≤◌, List, [], length, map, IfOk};
ghost use Rattle.verse_value.specs.Val.{int, array, vals};
ghost use Rattle.verse_value.specs.View.{val_of};
ghost use Rattle.verse_value.specs.Runs.{Line};
ghost use Rattle.verse_meaning_state.specs.State.{State};
ghost use Rattle.verse_code.specs.Validity.{Valid};
ghost use Rattle.verse_code_machine.specs.Runs.{Forest};
ghost use Rattle.tx_heap.specs.State.{empty};
ghost use Rattle.vm_running.specs.Runners.{view_of};
ghost use Rattle.vm_run.specs.Origins.{from_inputs, from_state, IsResumable};
ghost use Rattle.vm_run.specs.Reaching.{Rested};
ghost use Rattle.vm_run.specs.Standing.{At};

use sim_clock::waits::Waits;
use std::alloc::Global;
use trace_buf::buffers::TraceBuf;
use tx_heap::heaps::Heap;
use verse_base::refusals::Memory;
use verse_code::codes::Code;
use verse_value::runs::Ending;
use verse_value::values::Value;
use vm_frames::threads::Thread;
use vm_running::runners::Runner;
use vm_scheduler::tasks::Tasks;
use vm_wake::starts::no_tasks;

/// How far a run may go: the steps that it may spend, and the last moment of a turn in
/// milliseconds.
#[derive(Clone, Copy, Debug, PartialEq, Eq)]
pub struct Bounds {
    pub steps: u64,
    pub until: u64,
}

/// Where a run stands between two calls.
#[derive(Clone, Copy, Debug, PartialEq, Eq)]
pub enum Phase {
    /// Nothing has begun.
    Unbegun,
    /// Tasks are suspended.
    Between,
    /// The run is over.
    Ended(Ending),
    /// There was no memory for it.
    Lost,
}

/// A machine that runs a code, with a store and with the waits of its tasks.
pub struct Vm<H, W> {
    pub(crate) run: Runner<H>,
    pub(crate) tasks: Tasks<W>,
    /// The array of the inputs, until `Main` takes it.
    pub(crate) inputs: Value,
    pub(crate) bounds: Bounds,
    pub(crate) phase: Phase,
}

/// A function of its own, so that who lets a machine go sees one call.
impl<H: Drop, W: Drop> Drop for Vm<H, W> {
    fn drop(self) {
        let Self {
            run: _,
            tasks: _,
            inputs: _,
            bounds: _,
            phase: _,
        } = self;
    }
}

impl<H: Heap + Drop, W: Waits + Drop> Vm<H, W> {
    /// A machine of which nothing has begun, over an empty heap and no waits. There are at most
    /// 1000 inputs; steps are at most `MOST_STEPS`, and the horizon is at most `MOST_NOW`.
    pub fn new(
        alloc: Global,
        code: &Code,
        heap: H,
        waits: W,
        inputs: &[i64],
        bounds: Bounds,
    ) -> Result<Vm<H, W>, Memory>
        requires valid { Valid code.now }
        requires heap { H.state heap ≡ empty }
        requires waits { W.pending waits ≡ [] }
        requires inputs { length inputs.now ≤ 1000 }
        requires steps { bounds.steps ≤ MOST_STEPS }
        requires until { bounds.until ≤ MOST_NOW }
        ensures { IfOk result (λ m.
            At H.state W.pending code.now (from_inputs inputs.now) bounds.steps bounds.until 0 []
            m) }
    {
        let _ = code.main;
        let inputs = input_array(alloc, inputs)?;
        Ok(Vm {
            run: Runner {
                thread: Thread::empty(alloc),
                heap,
                trace: TraceBuf::new(alloc),
                left: bounds.steps,
                spent: 0,
                moment: 0,
            },
            tasks: no_tasks(alloc, waits),
            inputs,
            bounds,
            phase: Phase::Unbegun,
        })
    }

    /// A machine between two turns, which has these parts. Steps are at most `MOST_STEPS`, and the
    /// horizon is at most `MOST_NOW`. Takes no memory.
    pub fn from_parts(code: &Code, run: Runner<H>, tasks: Tasks<W>, bounds: Bounds) -> Vm<H, W>
        requires steps { bounds.steps ≤ MOST_STEPS }
        requires until { bounds.until ≤ MOST_NOW }
        ensures { (s : State) (trees : Forest) (past : List Line) →
            Rested W.pending s trees past (view_of H.state run) tasks →
            IsResumable code.now bounds.steps s trees →
            At H.state W.pending code.now (from_state s trees) bounds.steps bounds.until 0 past
            result }
    {
        let _ = code.main;
        Vm {
            run,
            tasks,
            inputs: Value::Unit,
            bounds,
            phase: Phase::Between,
        }
    }

    /// The moment of the last turn in milliseconds, 0 before the first. Takes no memory.
    pub fn now(&self) -> u64
        ensures { result ≡ self.now.run.moment }
    {
        self.run.moment
    }

    /// The steps that are spent. Takes no memory.
    pub fn steps(&self) -> u64
        ensures { result ≡ self.now.run.spent }
    {
        self.run.spent
    }

    /// How many waits are live. Takes no memory.
    pub fn live(&self) -> u64
        ensures { result ≡ length (W.pending self.now.tasks.gone.waits) }
    {
        self.tasks.gone.waits.len()
    }

    /// The heap and the trace as they stand. Takes no memory.
    pub fn into_parts(self) -> (H, TraceBuf)
        ensures heap { result.0 ≡ self.run.heap }
        ensures trace { result.1 ≡ self.run.trace }
    {
        let Vm {
            run,
            tasks: _,
            inputs: _,
            bounds: _,
            phase: _,
        } = self;
        let Runner {
            thread: _,
            heap,
            trace,
            left: _,
            spent: _,
            moment: _,
        } = run;
        (heap, trace)
    }
}

/// The array of these integers.
fn input_array(alloc: Global, inputs: &[i64]) -> Result<Value, Memory>
    ensures { IfOk result (λ v. val_of v ≡ array (vals (map int inputs.now))) }
{
    let mut items = Vec::new(alloc);
    for input in inputs {
        items.push(Value::Int(*input))?;
    }
    Value::array(alloc, items)
}
