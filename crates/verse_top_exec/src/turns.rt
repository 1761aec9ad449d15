//! The turns of a run, each written when it is over.

ghost use Rattle.verse_base.specs.declared.limits.TheConstants.{MOST_STEPS};
ghost use Rattle.std.specs.Prelude.{◌≡◌, ◌≤◌, [], length};
ghost use Rattle.verse_code.specs.Validity.{Valid};
ghost use Rattle.vm_run.specs.Standing.{Belongs};
ghost use Rattle.verse_top_exec.specs.Courses.{Course};
ghost use Rattle.verse_top_exec.specs.Turns.{Goes, StandsAt};

use crate::stops::Stop;
use sim_clock::waits::Waits;
use tx_heap::heaps::Heap;
use verse_code::codes::Code;
use verse_outside::sinks::Sink;
use verse_value::runs::Ending;
use vm_run::laws::runs_hold;
use vm_run::machines::Vm;

/// Takes all turns of a run that is at its start and may spend so many steps, at most `MOST_STEPS`,
/// and writes the lines of each.
pub fn all_turns<H: Heap + Drop, W: Waits + Drop, S: Sink>(
    vm: &mut Vm<H, W>,
    code: &Code,
    steps: u64,
    out: &mut S,
) -> Result<Ending, Stop>
    requires valid { Valid code.now }
    requires few { steps ≤ MOST_STEPS }
    requires begun { (w : Course) × (w.steps ≡ steps) ×
        StandsAt H.state W.pending code.now w 0 [] vm.old }
    ensures goes { (w : Course) → w.steps ≡ steps →
        StandsAt H.state W.pending code.now w 0 [] vm.old →
        Goes H.state W.pending code.now w (S.faults out.old) (S.faults out.new) (S.taken out.old)
        (S.taken out.new) vm.new result }
    ensures later { S.faults out.old ≤ S.faults out.new }
{
    runs_hold();
    'turns: for _turn in 0..steps + 2 {
        if let Some(ending) = vm.turn_to(code, out)? {
            return Ok(ending);
        }
    }
    unreachable!()
}
