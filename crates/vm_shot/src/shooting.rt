//! What is kept of a machine.

ghost use Rattle.std.specs.Prelude.{◌≡◌, IfOk};
ghost use Rattle.vm_running.specs.Runners.{view_of};
ghost use Rattle.run_save_shots.specs.View.{shot_of};
ghost use Rattle.vm_shot.specs.Spelling.{SpellsEach};
ghost use Rattle.vm_shot.specs.Shooting.{CanBeShot};

use crate::cells::cells_shot;
use crate::given::spawned_shot;
use crate::parts_spell;
use run_save_shots::shots::Shot;
use sim_clock::waits::Waits;
use std::alloc::Global;
use tx_heap::heaps::Heap;
use verse_base::refusals::Memory;
use verse_code::codes::Code;
use vm_running::runners::Runner;
use vm_scheduler::tasks::Tasks;
use vm_shot_tasks::tasks::tasks_shot;

/// What is kept of a machine whose tasks are suspended. Only the heap's count of accesses changes.
/// Memory is wanting too where there are more than 4294967296 tasks, or as many arms of a group.
pub fn shot<H: Heap, W: Waits>(
    alloc: Global,
    run: &mut Runner<H>,
    tasks: &Tasks<W>,
    code: &Code,
) -> Result<Shot, Memory>
    requires { CanBeShot W.pending code.now (view_of H.state run.old) tasks.now }
    ensures spells { IfOk result (λ x. SpellsEach W.pending (shot_of x)
        (view_of H.state run.old) tasks.now) }
    ensures same { view_of H.state run.new ≡ view_of H.state run.old }
{
    parts_spell(run, tasks);
    let cells = cells_shot(alloc, &mut run.heap, code)?;
    let spawned = spawned_shot(alloc, tasks.results.as_slice())?;
    let suspended = tasks_shot(alloc, &tasks.tree)?;
    let bytes = run.trace.bytes();
    let lines = run.trace.lines();
    Ok(Shot {
        left: run.left,
        spent: run.spent,
        now: run.moment,
        next: tasks.next,
        bytes,
        lines,
        cells,
        spawned,
        tasks: suspended,
    })
}
