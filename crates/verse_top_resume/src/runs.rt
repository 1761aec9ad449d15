//! The run that goes on from what is kept.

ghost use Rattle.verse_base.specs.declared.limits.TheConstants.{MOST_NOW};
ghost use Rattle.std.specs.Prelude.{◌≡◌, ◌≤◌, []};
ghost use Rattle.tx_heap.specs.State.{empty};
ghost use Rattle.verse_code.specs.Validity.{Valid};
ghost use Rattle.run_save_shots.specs.Fitting.{Fits};
ghost use Rattle.run_save_shots.specs.View.{shot_of};
ghost use Rattle.verse_top_exec.specs.Courses.{Comes, ComesSoFar};
ghost use Rattle.verse_top_exec.specs.Leaving.{Leaves};
ghost use Rattle.verse_top_resume.specs.Resuming.{course_from};

use run_save_shots::shots::Shot;
use sim_clock::waits::Waits;
use std::alloc::Global;
use tx_heap::heaps::Heap;
use verse_code::codes::Code;
use verse_outside::sinks::Sink;
use verse_top_exec::stops::Stop;
use verse_top_exec::streams::stream_on;
use vm_resume::machines::from_shot;

/// Goes on with the run of which this is kept, over a heap and waits that are empty, writes its
/// text as it goes on, and answers the status.
pub(crate) fn go_on<H: Heap + Drop, W: Waits + Drop, S: Sink>(
    alloc: Global,
    code: &Code,
    heap: H,
    waits: W,
    shot: Shot,
    until: u64,
    lines: bool,
    out: &mut S,
) -> Result<u8, Stop>
    requires valid { Valid code.now }
    requires fits { Fits code.now (shot_of shot) }
    requires heap { H.state heap ≡ empty }
    requires waits { W.pending waits ≡ [] }
    requires until { until ≤ MOST_NOW }
    ensures leaves { Leaves (Comes code.now (course_from code.now (shot_of shot) until lines))
        (ComesSoFar code.now (course_from code.now (shot_of shot) until lines)) (S.faults out.old)
        (S.faults out.new) (S.taken out.old) (S.taken out.new) result }
    ensures later { S.faults out.old ≤ S.faults out.new }
{
    let steps = shot.left + shot.spent;
    let vm = from_shot(alloc, code, heap, waits, shot, until)?;
    stream_on(alloc, code, vm, steps, lines, out)
}
