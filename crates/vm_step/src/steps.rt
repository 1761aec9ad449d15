//! One operation.

ghost use Rattle.std.specs.Prelude.{IfOk};
ghost use Rattle.verse_code.specs.Validity.{Valid};
ghost use Rattle.verse_code_machine.specs.Belonging.{StoreBelongs};
ghost use Rattle.vm_running.specs.Runners.{view_of};
ghost use Rattle.vm_scheduler.specs.Going.{Goes};
ghost use Rattle.vm_scheduler.specs.Meets.{Comes};
ghost use Rattle.vm_step.specs.Steps.{steps};

use crate::served::{serve, serve_end};
use sim_clock::waits::Waits;
use tx_heap::heaps::Heap;
use verse_base::refusals::Memory;
use verse_code::codes::Code;
use verse_code::operations::Op;
use verse_value::runs::Ending;
use vm_exec::acting::act;
use vm_exec_tasks::ending::give_back;
use vm_running::runners::Runner;
use vm_scheduler::tasks::{Tasks, Went};

/// Carries out the next operation of the task that runs: a task goes on, the run is over, or the
/// turn is over. Stuck at the end of the code.
pub fn step<H: Heap, W: Waits>(
    run: &mut Runner<H>,
    tasks: &mut Tasks<W>,
    code: &Code,
) -> Result<Went, Memory>
    requires there { Goes W.pending (view_of H.state run.old) tasks.old }
    requires valid { Valid code.now }
    requires belongs { StoreBelongs code.now.classes (H.state run.old.heap).cells }
    ensures { IfOk result (λ r. Comes W.pending (steps code.now) r
        (view_of H.state run.old) tasks.old (view_of H.state run.new) tasks.new) }
{
    let Some(op) = code.ops.get(run.thread.place() as usize) else {
        return Ok(Went::Over(Ending::Stuck));
    };
    tasks.tree.is_nested();
    if let Op::Return = *op {
        let asked = give_back(run);
        return serve_end(run, tasks, asked);
    }
    let asked = act(tasks.alloc, run, code, *op)?;
    serve(run, tasks, asked)
}
