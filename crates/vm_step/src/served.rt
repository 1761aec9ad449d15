//! What an operation asks is served.

ghost use Rattle.std.specs.Prelude.{◌≡◌, IfOk};
ghost use Rattle.verse_code_machine.specs.Acts.{kind_of as kind_meant};
ghost use Rattle.vm_running.specs.Runners.{view_of};
ghost use Rattle.vm_tasks.specs.View.{kind_of};
ghost use Rattle.vm_step.specs.Steps.{IsAsked, Serves};

use sim_clock::waits::{WaitKind, Waits};
use tx_heap::heaps::Heap;
use verse_base::refusals::Memory;
use vm_begin::begins::{branch, spawn};
use vm_begin::groups::group;
use vm_exec_tasks::asked::Asked;
use vm_return::ends::{block_ended, closed, finished, returned};
use vm_running::runners::{Did, Runner};
use vm_scheduler::tasks::{Tasks, Went};
use vm_suspend::asleep::suspend;
use vm_suspend::results::await_task;
use vm_tasks::slots::Kind;
use vm_wake::signals::signal;

/// Serves what an operation asks, as it has left the task that runs.
pub fn serve<H: Heap, W: Waits>(
    run: &mut Runner<H>,
    tasks: &mut Tasks<W>,
    asked: Asked,
) -> Result<Went, Memory>
    requires { IsAsked W.pending asked (view_of H.state run.old) tasks.old }
    ensures { IfOk result (λ r. Serves W.pending asked r (view_of H.state run.old) tasks.old
        (view_of H.state run.new) tasks.new) }
{
    match asked {
        Asked::Nothing(Did::On) => Ok(Went::On),
        Asked::Nothing(Did::Over(ending)) => Ok(Went::Over(ending)),
        Asked::SleepUntil(moment) => suspend(run, tasks, WaitKind::At(moment)),
        Asked::SleepForever => suspend(run, tasks, WaitKind::Never),
        Asked::AwaitTask(entry) => await_task(run, tasks, entry),
        Asked::AwaitEvent(event) => suspend(run, tasks, WaitKind::Event(event)),
        Asked::Signal(event, value) => signal(run, tasks, event, value),
        Asked::Spawn(call) => {
            let func = call.func;
            spawn(run, tasks, &func, call.args)
        }
        Asked::Branch(place) => branch(run, tasks, place),
        Asked::Arms(arms) => group(run, tasks, group_kind(arms.kind), arms.place, arms.labels),
        Asked::Return(ended) => returned(run, tasks, ended.born, ended.value),
        Asked::Finish(ended) => finished(run, tasks, ended.born, ended.value),
        Asked::Close(ended) => closed(run, tasks, ended.born, ended.value),
        Asked::Clear => block_ended(run, tasks),
    }
}

/// Serves what an operation asks that ends a frame, as `serve` does.
pub fn serve_end<H: Heap, W: Waits>(
    run: &mut Runner<H>,
    tasks: &mut Tasks<W>,
    asked: Asked,
) -> Result<Went, Memory>
    requires { IsAsked W.pending asked (view_of H.state run.old) tasks.old }
    ensures { IfOk result (λ r. Serves W.pending asked r (view_of H.state run.old) tasks.old
        (view_of H.state run.new) tasks.new) }
{
    match asked {
        Asked::Return(ended) => returned(run, tasks, ended.born, ended.value),
        other => serve(run, tasks, other),
    }
}

// The kind of a group by its number.
fn group_kind(number: u32) -> Kind
    ensures { kind_of result ≡ kind_meant number }
{
    match number {
        0 => Kind::Sync,
        1 => Kind::Race,
        _ => Kind::Rush,
    }
}
