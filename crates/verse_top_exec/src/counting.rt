//! The run of a code of which the end is told, and how many lines its trace has.

ghost use Rattle.std.specs.Prelude.{◌≡◌, ◌++◌, [], IfOk};
ghost use Rattle.tx_heap.specs.State.{empty};
ghost use Rattle.verse_code.specs.Validity.{Valid};
ghost use Rattle.verse_top_exec.specs.Asking.{options_of};
ghost use Rattle.verse_top_exec.specs.Counts.{Counts};
ghost use Rattle.verse_top_exec.specs.Endings.{IsWithin};
ghost use Rattle.verse_top_load.specs.Load.{lines_line};
ghost use Rattle.verse_top_texts.specs.Endings.{ending_status};

use crate::asking::Asked;
use sim_clock::map_waits::MapWaits;
use sim_clock::waits::Waits;
use std::alloc::Global;
use tx_heap::heaps::Heap;
use tx_heap::undo_heap::UndoHeap;
use verse_base::refusals::Memory;
use verse_code::codes::Code;
use verse_top_load::lines_text;
use verse_top_texts::answers::Answer;
use verse_top_texts::endings::{ending_text, status_of};
use verse_value::runs::Ending;
use vm_run::laws::runs_hold;
use vm_run::machines::{Bounds, Vm};

/// Runs a code, and tells how the run ended and how many lines its trace has. The lines are kept
/// and not written, and nor is the heap.
pub fn count_run(alloc: Global, code: &Code, asked: Asked<'_>) -> Result<Answer, Memory>
    requires valid { Valid code.now }
    requires within { IsWithin (options_of asked) }
    ensures { IfOk result
        (λ a. Counts code.now (options_of asked.entry) a.status a.text.items) }
{
    let heap = UndoHeap::new(alloc);
    count(alloc, code, heap, MapWaits::new(alloc), asked)
}

/// Runs a code over a heap and waits that are empty.
fn count<H: Heap + Drop, W: Waits + Drop>(
    alloc: Global,
    code: &Code,
    heap: H,
    waits: W,
    asked: Asked<'_>,
) -> Result<Answer, Memory>
    requires valid { Valid code.now }
    requires heap { H.state heap ≡ empty }
    requires waits { W.pending waits ≡ [] }
    requires within { IsWithin (options_of asked) }
    ensures { IfOk result
        (λ a. Counts code.now (options_of asked.entry) a.status a.text.items) }
{
    let bounds = Bounds {
        steps: asked.steps,
        until: asked.until,
    };
    runs_hold();
    let mut vm = Vm::new(alloc, code, heap, waits, asked.inputs, bounds)?;
    let ending = vm.run(code)?;
    let (now, steps, live) = (vm.now(), vm.steps(), vm.live());
    let (_heap, trace) = vm.into_parts();
    let line = ending_text(alloc, ending, code.files, now, steps, live)?;
    counted(alloc, ending, line, trace.kept_lines())
}

/// The status of the ending, and behind its line the one that tells the number of lines.
fn counted(alloc: Global, ending: Ending, line: Vec<u8>, lines: u64) -> Result<Answer, Memory>
    ensures status { IfOk result (λ a. a.status ≡ ending_status ending) }
    ensures text { IfOk result (λ a. a.text.items ≡ line.items ++ lines_line lines) }
{
    let mut text = line;
    let count = lines_text(alloc, lines)?;
    text.extend_from_slice(count.as_slice())?;
    Ok(Answer {
        status: status_of(ending),
        text,
    })
}
