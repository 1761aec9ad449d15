//! A task goes on at its group; where it stands there, those above it go on.

ghost use Rattle.std.specs.Prelude.{◌≡◌, IfOk};
ghost use Rattle.vm_running.specs.Runners.{view_of};
ghost use Rattle.vm_group.specs.Groups.{Hand};
ghost use Rattle.vm_complete.specs.Groups.{IdleAt, RestsOn, SettlesOn, ArmEndsOn};

use sim_clock::waits::Waits;
use tx_heap::heaps::Heap;
use verse_base::refusals::Memory;
use vm_group::groups::{arm_ended, settle};
use vm_running::runners::Runner;
use vm_scheduler::tasks::{Begins, Tasks, Went};
use vm_suspend::idle::rest;

/// What a call has come to; where no task runs, those above go on.
fn rest_on<H: Heap, W: Waits>(
    run: &mut Runner<H>,
    tasks: &mut Tasks<W>,
    went: Went,
) -> Result<Went, Memory>
    requires { IdleAt W.pending went (view_of H.state run.old) tasks.old }
    ensures { IfOk result (λ r. RestsOn W.pending went r (view_of H.state run.old) tasks.old
        (view_of H.state run.new) tasks.new) }
{
    match went {
        Went::Down => rest(run, tasks),
        went => Ok(went),
    }
}

/// A task goes on with the value of its group, or it stands at the group and those above it go on.
pub fn settle_on<H: Heap, W: Waits>(
    run: &mut Runner<H>,
    tasks: &mut Tasks<W>,
    begins: Begins,
) -> Result<Went, Memory>
    requires { Hand W.pending begins (view_of H.state run.old) tasks.old }
    ensures { IfOk result (λ r. SettlesOn W.pending begins r (view_of H.state run.old) tasks.old
        (view_of H.state run.new) tasks.new) }
{
    let went = settle(run, tasks, begins)?;
    rest_on(run, tasks, went)
}

/// An arm has ended as it began: the next one begins, or the group has a value, or its task stands
/// at it and those above it go on.
pub fn arm_ends_on<H: Heap, W: Waits>(
    run: &mut Runner<H>,
    tasks: &mut Tasks<W>,
    begins: Begins,
) -> Result<Went, Memory>
    requires { Hand W.pending begins (view_of H.state run.old) tasks.old }
    ensures { IfOk result (λ r. ArmEndsOn W.pending begins r (view_of H.state run.old) tasks.old
        (view_of H.state run.new) tasks.new) }
{
    let went = arm_ended(run, tasks, begins)?;
    rest_on(run, tasks, went)
}
