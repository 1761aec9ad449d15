//! Other tasks, and frames that end.

ghost use Rattle.std.specs.Prelude.{◌<◌, IfOk};
ghost use Rattle.vm_frames.specs.Framed.{place_of};
ghost use Rattle.vm_running.specs.Views.{Ready};
ghost use Rattle.vm_running.specs.Runners.{view_of};
ghost use Rattle.vm_running.specs.Doings.{acts};
ghost use Rattle.vm_exec_tasks.specs.Asking.{Asks};
ghost use Rattle.vm_exec_tasks.specs.Leaving.{Leaves};
ghost use Rattle.vm_exec.specs.Sorting.{task_of};
ghost use Rattle.verse_code.specs.Validity.{Valid};

use crate::kinds::TaskOp;
use std::alloc::Global;
use tx_heap::heaps::Heap;
use verse_base::refusals::Memory;
use verse_code::codes::Code;
use verse_value::runs::Ending;
use vm_exec_tasks::asked::Asked;
use vm_exec_tasks::ending::{end_block, end_part, give_back};
use vm_exec_tasks::starting::{begin_arms, branch, spawn, spawn_method};
use vm_exec_tasks::waiting::{await_event, await_task, signal, sleep, sleep_forever};
use vm_running::runners::{Did, Runner};

/// What is the task's own is done, and the rest is asked.
pub fn task_act<H: Heap>(
    alloc: Global,
    run: &mut Runner<H>,
    code: &Code,
    op: TaskOp,
) -> Result<Asked, Memory>
    requires ready { Ready (view_of H.state run.old) }
    requires inner { place_of run.old.thread < 4294967295 }
    requires valid { Valid code.now }
    ensures asks { IfOk result (λ k. Asks (acts code.now (task_of op)) k (view_of H.state run.old)
        (view_of H.state run.new)) }
    ensures leaves { IfOk result
        (λ k. Leaves k (view_of H.state run.old) (view_of H.state run.new)) }
{
    match op {
        TaskOp::Sleep(duration) => sleep(run, duration),
        TaskOp::Forever => Ok(sleep_forever(run)),
        TaskOp::AwaitTask => Ok(await_task(run)),
        TaskOp::AwaitEvent => Ok(await_event(run)),
        TaskOp::Signal => signal(run),
        TaskOp::Spawn(func) => spawn(alloc, run, code, func),
        TaskOp::SpawnMethod(method, count) => spawn_method(alloc, run, code, method, count),
        TaskOp::Group(group) => begin_arms(alloc, run, code, group),
        TaskOp::Arm(label) => Ok(Asked::Nothing(Did::Over(Ending::Stuck))),
        TaskOp::Branch(label) => Ok(branch(run, label)),
        TaskOp::Return => Ok(give_back(run)),
        TaskOp::ArmEnd => Ok(end_part(run)),
        TaskOp::DeferEnd => Ok(end_block(run)),
    }
}
