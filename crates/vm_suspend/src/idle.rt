//! No task runs: the nearest of those above goes on.

ghost use Rattle.std.specs.Prelude.{◌≡◌, IfOk};
ghost use Rattle.vm_running.specs.Runners.{view_of};
ghost use Rattle.vm_scheduler.specs.declared.tasks.Went.TheVariants.{Down};
ghost use Rattle.vm_suspend.specs.Idle.{Idle, RestsTo, Above, GoesUp, AboveGroup, GroupUp};

use sim_clock::waits::Waits;
use tx_heap::heaps::Heap;
use verse_base::refusals::Memory;
use verse_value::values::Value;
use vm_group::groups::next_arm;
use vm_running::runners::Runner;
use vm_scheduler::moves::resume;
use vm_scheduler::tasks::{Begins, Tasks, Up, Went};
use vm_tasks::slots::Arm;

/// No task runs, and nothing is being cancelled. The nearest of those above goes on, and where it
/// stands at its group the one above it; where there is none the turn is over.
pub fn rest<H: Heap, W: Waits>(run: &mut Runner<H>, tasks: &mut Tasks<W>) -> Result<Went, Memory>
    requires { Idle W.pending (view_of H.state run.old) tasks.old }
    ensures { IfOk result (λ r. RestsTo W.pending r (view_of H.state run.old) tasks.old
        (view_of H.state run.new) tasks.new) }
{
    'above: while let Some(up) = tasks.ups.pop() {
        match go_up(run, tasks, up)? {
            Went::Down => {}
            went => return Ok(went),
        }
    }
    Ok(Went::Down)
}

/// A task goes on where the one that it has begun is suspended, or it stands at its group.
fn go_up<H: Heap, W: Waits>(
    run: &mut Runner<H>,
    tasks: &mut Tasks<W>,
    up: Up,
) -> Result<Went, Memory>
    requires { Above W.pending up (view_of H.state run.old) tasks.old }
    ensures goes { IfOk result (λ r. GoesUp W.pending up r (view_of H.state run.old) tasks.old
        (view_of H.state run.new) tasks.new) }
    ensures above { IfOk result (λ r. r ≡ Down → tasks.new.ups ≡ tasks.old.ups) }
{
    match up {
        Up::Begins(begins) => go_arms(run, tasks, begins),
        Up::Branching(id, thread) => resume(run, tasks, id, thread, Value::Unit),
        Up::Spawning(id, thread, entry) => resume(run, tasks, id, thread, Value::Task(entry)),
    }
}

/// The arm that ran is suspended: the next one begins, or the group has a value, or the task stands
/// at its group.
fn go_arms<H: Heap, W: Waits>(
    run: &mut Runner<H>,
    tasks: &mut Tasks<W>,
    begins: Begins,
) -> Result<Went, Memory>
    requires { AboveGroup W.pending begins (view_of H.state run.old) tasks.old }
    ensures goes { IfOk result (λ r. GroupUp W.pending begins r (view_of H.state run.old) tasks.old
        (view_of H.state run.new) tasks.new) }
    ensures above { IfOk result (λ r. r ≡ Down → tasks.new.ups ≡ tasks.old.ups) }
{
    let mut begins = begins;
    begins.arms.push(Arm::Runs(begins.number))?;
    next_arm(run, tasks, begins)
}
