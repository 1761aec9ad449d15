//! The start of a run.

ghost use Rattle.std.specs.Prelude.{ℤ, List, ◌≡◌, ◌≤◌, ◌+◌, map, [], length, IfOk};
ghost use Rattle.verse_value.specs.Val.{int, array, vals};
ghost use Rattle.verse_value.specs.View.{val_of, vals_of};
ghost use Rattle.verse_code_machine.specs.Runs.{inputs_of};
ghost use Rattle.vm_running.specs.Runners.{view_of};
ghost use Rattle.vm_wake.specs.Starts.{IsNew, Fresh, MainStarts};

use sim_clock::waits::Waits;
use std::alloc::Global;
use task_tree::tree::TaskTree;
use tx_heap::heaps::Heap;
use verse_base::refusals::Memory;
use verse_code::codes::Func;
use verse_value::runs::Ending;
use verse_value::values::Value;
use vm_frames::threads::Thread;
use vm_running::runners::Runner;
use vm_scheduler::tasks::{Tasks, Went};
use vm_tasks::gone::Gone;
use vm_tasks::slots::Root;
use vm_tasks::table::begin_root;

/// No tasks, and these waits, of which there are none. Takes no memory.
pub fn no_tasks<W: Waits>(alloc: Global, waits: W) -> Tasks<W>
    requires { W.pending waits ≡ [] }
    ensures { IsNew W.pending result }
{
    let gone = Gone {
        waits,
        frames: Vec::new(alloc),
        lost: false,
    };
    Tasks {
        alloc,
        tree: TaskTree::new(alloc),
        gone,
        ups: Vec::new(alloc),
        after: None,
        id: 0,
        next: 0,
        results: Vec::new(alloc),
        signals: Vec::new(alloc),
    }
}

/// Main begins with a call of its function, for a step: with the array of the inputs where it has a
/// parameter. The run is over where no step is left.
pub fn start_main<H: Heap, W: Waits>(
    run: &mut Runner<H>,
    tasks: &mut Tasks<W>,
    func: &Func,
    inputs: Value,
) -> Result<Went, Memory>
    requires fresh { Fresh (view_of H.state run.old) }
    requires new { IsNew W.pending tasks.old }
    requires params { func.now.params ≤ 1 }
    requires locals { func.now.params ≤ func.now.locals }
    ensures { (ns : List ℤ) → val_of inputs ≡ array (vals (map int ns)) →
        IfOk result (λ r. MainStarts W.pending func.now ns r (view_of H.state run.old)
        (view_of H.state run.new) tasks.new) }
{
    let args = main_args(tasks.alloc, func.params, inputs)?;
    if run.left == 0 {
        return Ok(Went::Over(Ending::Steps));
    }
    run.left -= 1;
    run.spent += 1;
    let id = begin_root(&mut tasks.tree, Root::Main, run.left)?;
    let thread = Thread::begin(tasks.alloc, func, args, run.left)?;
    run.thread = thread;
    tasks.id = id;
    Ok(Went::On)
}

/// The arguments of Main, which has one parameter at most.
#[tactic(auto, using(crate::proofs::Starting::no_inputs, crate::proofs::Starting::one_input))]
fn main_args(alloc: Global, params: u32, inputs: Value) -> Result<Vec<Value>, Memory>
    requires { params ≤ 1 }
    ensures count { IfOk result (λ vs. length vs.items ≡ params) }
    ensures args { (ns : List ℤ) → val_of inputs ≡ array (vals (map int ns)) →
        IfOk result (λ vs. vals_of vs.items ≡ inputs_of params ns) }
{
    let mut args = Vec::new(alloc);
    if params == 1 {
        args.push(inputs)?;
    }
    Ok(args)
}
