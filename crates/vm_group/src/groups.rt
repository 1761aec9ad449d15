//! A task goes on with its group's value, or stands at the group.

ghost use Rattle.std.specs.Prelude.{◌≡◌, IfOk};
ghost use Rattle.verse_value.specs.View.{val_of};
ghost use Rattle.vm_tasks.specs.declared.slots.Kind.TheVariants.{Sync, Race, Rush};
ghost use Rattle.vm_scheduler.specs.declared.tasks.Went.TheVariants.{Down};
ghost use Rattle.vm_running.specs.Runners.{view_of};
ghost use Rattle.vm_group.specs.Groups.{Hand, Settles, NextArm, ArmEnded, InGroup, CancelsArms};
ghost use Rattle.vm_group.specs.Groups.{StandsThere};

use crate::arms::{all_gave, first_value, one_gave, values_of};
use sim_clock::waits::Waits;
use tx_heap::heaps::Heap;
use verse_base::refusals::Memory;
use verse_value::runs::Ending;
use verse_value::values::Value;
use vm_begin::begins::begin_arm;
use vm_cancel::cancels::{cancel, run_blocks};
use vm_frames::threads::Thread;
use vm_ops::aggregates::op_tuple;
use vm_ops::faults::OpFault;
use vm_running::runners::Runner;
use vm_scheduler::moves::resume;
use vm_scheduler::tasks::{After, Begins, Tasks, Went};
use vm_tasks::slots::{Group, Held, Kind};
use vm_tasks::table::set_down;

/// The next arm of a group begins; or each has begun, and the task goes on with a value or stands
/// at its group. Where no task runs then, the same are above.
pub fn next_arm<H: Heap, W: Waits>(
    run: &mut Runner<H>,
    tasks: &mut Tasks<W>,
    begins: Begins,
) -> Result<Went, Memory>
    requires { Hand W.pending begins (view_of H.state run.old) tasks.old }
    ensures next { IfOk result (λ r. NextArm W.pending begins r (view_of H.state run.old) tasks.old
        (view_of H.state run.new) tasks.new) }
    ensures above { IfOk result (λ r. r ≡ Down → tasks.new.ups ≡ tasks.old.ups) }
{
    tasks.tree.is_nested();
    let mut begins = begins;
    match begins.labels.pop() {
        Some(label) => begin_arm(run, tasks, begins, label),
        None => settle(run, tasks, begins),
    }
}

/// An arm has ended as it began.
pub fn arm_ended<H: Heap, W: Waits>(
    run: &mut Runner<H>,
    tasks: &mut Tasks<W>,
    begins: Begins,
) -> Result<Went, Memory>
    requires { Hand W.pending begins (view_of H.state run.old) tasks.old }
    ensures { IfOk result (λ r. ArmEnded W.pending begins r (view_of H.state run.old) tasks.old
        (view_of H.state run.new) tasks.new) }
{
    match begins.kind {
        Kind::Race => settle(run, tasks, begins),
        Kind::Sync | Kind::Rush => next_arm(run, tasks, begins),
    }
}

/// The task goes on with the value of its group, or stands at the group. Where no task runs then,
/// the same are above.
pub fn settle<H: Heap, W: Waits>(
    run: &mut Runner<H>,
    tasks: &mut Tasks<W>,
    begins: Begins,
) -> Result<Went, Memory>
    requires { Hand W.pending begins (view_of H.state run.old) tasks.old }
    ensures settles { IfOk result
        (λ r. Settles W.pending begins r (view_of H.state run.old) tasks.old
        (view_of H.state run.new) tasks.new) }
    ensures above { IfOk result (λ r. r ≡ Down → tasks.new.ups ≡ tasks.old.ups) }
{
    match begins.kind {
        Kind::Sync => settle_sync(run, tasks, begins),
        Kind::Race => settle_race(run, tasks, begins),
        Kind::Rush => settle_rush(run, tasks, begins),
    }
}

fn settle_sync<H: Heap, W: Waits>(
    run: &mut Runner<H>,
    tasks: &mut Tasks<W>,
    begins: Begins,
) -> Result<Went, Memory>
    requires hand { Hand W.pending begins (view_of H.state run.old) tasks.old }
    requires kind { begins.kind ≡ Sync }
    ensures settles { IfOk result
        (λ r. Settles W.pending begins r (view_of H.state run.old) tasks.old
        (view_of H.state run.new) tasks.new) }
    ensures above { IfOk result (λ r. r ≡ Down → tasks.new.ups ≡ tasks.old.ups) }
{
    if !all_gave(begins.arms.as_slice()) {
        return Ok(stand(run, tasks, begins));
    }
    tasks.tree.is_nested();
    let values = values_of(tasks.alloc, begins.arms)?;
    match op_tuple(values) {
        Ok(value) => resume(run, tasks, begins.id, begins.thread, value),
        Err(OpFault::Fault(kind)) => Ok(Went::Over(Ending::Error(kind, begins.place))),
        Err(OpFault::Memory) => Err(Memory),
        Err(OpFault::Fail) => Ok(Went::Over(Ending::Stuck)),
        Err(OpFault::Stuck) => Ok(Went::Over(Ending::Stuck)),
    }
}

fn settle_race<H: Heap, W: Waits>(
    run: &mut Runner<H>,
    tasks: &mut Tasks<W>,
    begins: Begins,
) -> Result<Went, Memory>
    requires hand { Hand W.pending begins (view_of H.state run.old) tasks.old }
    requires kind { begins.kind ≡ Race }
    ensures settles { IfOk result
        (λ r. Settles W.pending begins r (view_of H.state run.old) tasks.old
        (view_of H.state run.new) tasks.new) }
    ensures above { IfOk result (λ r. r ≡ Down → tasks.new.ups ≡ tasks.old.ups) }
{
    if !one_gave(begins.arms.as_slice()) {
        return Ok(stand(run, tasks, begins));
    }
    match first_value(begins.arms) {
        Some(value) => cancel_arms(run, tasks, begins.id, begins.thread, value),
        None => unreachable!(),
    }
}

fn settle_rush<H: Heap, W: Waits>(
    run: &mut Runner<H>,
    tasks: &mut Tasks<W>,
    begins: Begins,
) -> Result<Went, Memory>
    requires hand { Hand W.pending begins (view_of H.state run.old) tasks.old }
    requires kind { begins.kind ≡ Rush }
    ensures settles { IfOk result
        (λ r. Settles W.pending begins r (view_of H.state run.old) tasks.old
        (view_of H.state run.new) tasks.new) }
    ensures above { IfOk result (λ r. r ≡ Down → tasks.new.ups ≡ tasks.old.ups) }
{
    if !one_gave(begins.arms.as_slice()) {
        return Ok(stand(run, tasks, begins));
    }
    tasks.tree.is_nested();
    match first_value(begins.arms) {
        Some(value) => resume(run, tasks, begins.id, begins.thread, value),
        None => unreachable!(),
    }
}

/// The other arms of a task's group are cancelled, and then it goes on with a value.
fn cancel_arms<H: Heap, W: Waits>(
    run: &mut Runner<H>,
    tasks: &mut Tasks<W>,
    id: usize,
    thread: Thread,
    value: Value,
) -> Result<Went, Memory>
    requires { InGroup W.pending id thread (view_of H.state run.old) tasks.old }
    ensures { IfOk result (λ r. CancelsArms W.pending id thread (val_of value) r
        (view_of H.state run.old) tasks.old (view_of H.state run.new) tasks.new) }
{
    tasks.tree.is_nested();
    let since = match tasks.tree.get(id) {
        Some(slot) => slot.since,
        None => unreachable!(),
    };
    cancel(tasks, id, since)?;
    tasks.tree.is_nested();
    match run_blocks(run, tasks, id, After::Resuming(thread, value)) {
        Went::Down => {}
        went => return Ok(went),
    }
    match tasks.after.take() {
        Some(After::Resuming(thread, value)) => resume(run, tasks, id, thread, value),
        _ => unreachable!(),
    }
}

/// The task stands at its group.
pub fn stand<H: Heap, W: Waits>(run: &Runner<H>, tasks: &mut Tasks<W>, begins: Begins) -> Went
    requires { Hand W.pending begins (view_of H.state run.now) tasks.old }
    ensures stands { StandsThere W.pending begins result
        (view_of H.state run.now) tasks.old tasks.new }
    ensures above { tasks.new.ups ≡ tasks.old.ups }
{
    let _ = &run.left;
    let Begins {
        id,
        thread,
        kind,
        place,
        arms,
        number: _,
        labels: _,
    } = begins;
    let group = Group { kind, place, arms };
    tasks.tree.is_nested();
    set_down(&mut tasks.tree, id, Held::AtGroup(thread, group));
    Went::Down
}
