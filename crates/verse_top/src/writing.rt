//! Answers that are written all at once.

ghost use Rattle.std.specs.Prelude.{◌≤◌};
ghost use Rattle.verse_top_exec.specs.Leaving.{Leaves};
ghost use Rattle.verse_top_exec.specs.Executions.{IsNothing};
ghost use Rattle.verse_top.specs.Answers.{IsAnswer};

use verse_outside::sinks::{Sink, write_all};
use verse_top_exec::stops::Stop;
use verse_top_texts::answers::Answer;

/// Writes the text and answers the status.
pub(crate) fn write_answer<S: Sink>(answer: Answer, out: &mut S) -> Result<u8, Stop>
    ensures leaves { Leaves (IsAnswer answer.status answer.text.items) IsNothing (S.faults out.old)
        (S.faults out.new) (S.taken out.old) (S.taken out.new) result }
    ensures later { S.faults out.old ≤ S.faults out.new }
{
    write_all(out, answer.text.as_slice())?;
    Ok(answer.status)
}
