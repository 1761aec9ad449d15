//! The start of a run and its next turn, by the parts of a machine.

ghost use Rattle.verse_base.specs.declared.limits.TheConstants.{MOST_STEPS};
ghost use Rattle.std.specs.Prelude.{◌≡◌, ◌≤◌, ℕ, ℤ, List, map, IfOk, if◌then◌else◌};
ghost use Rattle.verse_code.specs.Validity.{Valid};
ghost use Rattle.verse_value.specs.Val.{int, array, vals};
ghost use Rattle.verse_value.specs.View.{val_of};
ghost use Rattle.vm_running.specs.Runners.{view_of};
ghost use Rattle.vm_run.specs.Reaching.{IsWholly, Follows, CanBegin, Begins, CanTurn, Turns};

use crate::closing::close;
use crate::machines::{Bounds, Phase};
use crate::operations::carry;
use sim_clock::waits::Waits;
use tx_heap::heaps::Heap;
use verse_base::refusals::Memory;
use verse_code::codes::Code;
use verse_value::values::Value;
use vm_running::runners::Runner;
use vm_scheduler::tasks::{Tasks, Went};
use vm_wake::starts::start_main;
use vm_wake::turns::take_turn;

/// Main begins, and operations follow.
pub(crate) fn begin<H: Heap, W: Waits>(
    run: &mut Runner<H>,
    tasks: &mut Tasks<W>,
    code: &Code,
    inputs: Value,
    steps: u64,
) -> Result<Phase, Memory>
    requires valid { Valid code.now }
    requires few { steps ≤ MOST_STEPS }
    requires can { CanBegin W.pending code.now (val_of inputs) steps
        (view_of H.state run.old) tasks.old }
    ensures { (ns : List ℤ) → val_of inputs ≡ array (vals (map int ns)) →
        IfOk result (λ p. Begins W.pending code.now ns steps p
        (view_of H.state run.new) tasks.new) }
{
    let Some(main) = code.functions.get(code.main as usize) else {
        unreachable!()
    };
    match start_main(run, tasks, main, inputs)? {
        Went::On => follow(run, tasks, code, steps),
        Went::Over(ending) => {
            close(run);
            Ok(Phase::Ended(ending))
        }
        Went::Down => unreachable!(),
    }
}

/// The task of the next wait goes on, and operations follow.
pub(crate) fn go<H: Heap, W: Waits>(
    run: &mut Runner<H>,
    tasks: &mut Tasks<W>,
    code: &Code,
    bounds: Bounds,
) -> Result<Phase, Memory>
    requires valid { Valid code.now }
    requires few { bounds.steps ≤ MOST_STEPS }
    requires can { CanTurn W.pending code.now bounds.steps bounds.until
        (view_of H.state run.old) tasks.old }
    ensures { IfOk result (λ p. Turns W.pending code.now bounds.steps bounds.until p
        (view_of H.state run.old) tasks.old (view_of H.state run.new) tasks.new) }
{
    match take_turn(run, tasks, bounds.until)? {
        Went::On => follow(run, tasks, code, bounds.steps),
        Went::Over(ending) => Ok(Phase::Ended(ending)),
        Went::Down => unreachable!(),
    }
}

/// Operations follow until no task runs or the run is over.
fn follow<H: Heap, W: Waits>(
    run: &mut Runner<H>,
    tasks: &mut Tasks<W>,
    code: &Code,
    steps: u64,
) -> Result<Phase, Memory>
    requires valid { Valid code.now }
    requires few { steps ≤ MOST_STEPS }
    requires whole { IsWholly W.pending code.now steps (view_of H.state run.old) tasks.old }
    ensures { IfOk result (λ p. Follows W.pending code.now steps p
        (view_of H.state run.old) tasks.old (view_of H.state run.new) tasks.new) }
{
    match carry(run, tasks, code, steps)? {
        Went::On => unreachable!(),
        Went::Over(ending) => {
            close(run);
            Ok(Phase::Ended(ending))
        }
        Went::Down => Ok(Phase::Between),
    }
}
