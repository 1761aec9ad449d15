//! Events that are signalled.

ghost use Rattle.std.specs.Prelude.{IfOk};
ghost use Rattle.verse_value.specs.View.{val_of};
ghost use Rattle.vm_running.specs.Runners.{view_of};
ghost use Rattle.vm_scheduler.specs.Meets.{Comes};
ghost use Rattle.vm_wake.specs.Signals.{signals};

use sim_clock::waits::Waits;
use tx_heap::heaps::Heap;
use verse_base::refusals::Memory;
use verse_value::values::Value;
use vm_running::runners::Runner;
use vm_scheduler::tasks::{Tasks, Went};

/// The event of a cell is signalled with a value, and the running task goes on. Those that await
/// the event are woken.
pub fn signal<H: Heap, W: Waits>(
    run: &Runner<H>,
    tasks: &mut Tasks<W>,
    event: u32,
    value: Value,
) -> Result<Went, Memory>
    ensures { IfOk result (λ r. Comes W.pending (signals event (val_of value)) r
        (view_of H.state run.now) tasks.old (view_of H.state run.now) tasks.new) }
{
    let number = tasks.signals.len();
    tasks.signals.push(value)?;
    tasks
        .gone
        .waits
        .wake_event(event, number as u64, run.moment);
    Ok(Went::On)
}
