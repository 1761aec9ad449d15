//! What is done with an image and its notes.

ghost use Rattle.std.specs.Prelude.{◌≡◌, ◌≤◌, IfOk, map, string_bytes};
ghost use Rattle.verse_top_args.specs.Words.{Command};
ghost use Rattle.verse_top_args.specs.Requests.{AsksForVerify};
ghost use Rattle.verse_top_exec.specs.Leaving.{Leaves};
ghost use Rattle.verse_top.specs.Answers.{Begins};
ghost use Rattle.verse_top.specs.Ends.{Replies};

use crate::answers::not_read;
use crate::writing::write_answer;
use std::alloc::Global;
use verse_base::refusals::Memory;
use verse_outside::files::{Files, LoadFault};
use verse_outside::sinks::Sink;
use verse_top_exec::stops::Stop;
use verse_top_texts::answers::Answer;
use verse_top_verify::verify_image;

/// Loads both files whole, and tests the image in the first by the notes in the second.
pub(crate) fn over_pair<F: Files, S: Sink>(
    alloc: Global,
    names: &[String],
    files: &mut F,
    out: &mut S,
) -> Result<u8, Stop>
    requires asks { (c : Command) × AsksForVerify (map string_bytes names.now) c }
    ensures leaves { (c : Command) → AsksForVerify (map string_bytes names.now) c →
        Leaves (Replies c (F.holds files.old) (F.faults files.old) (F.faults files.new))
        (Begins (F.holds files.old) c) (S.faults out.old) (S.faults out.new) (S.taken out.old)
        (S.taken out.new) result }
    ensures same_files { F.holds files.new ≡ F.holds files.old }
    ensures file_faults { F.faults files.old ≤ F.faults files.new }
    ensures sink_faults { S.faults out.old ≤ S.faults out.new }
{
    let answer = tested(alloc, names, files)?;
    write_answer(answer, out)
}

/// What the notes show of the image, or that a file was not read.
fn tested<F: Files>(alloc: Global, names: &[String], files: &mut F) -> Result<Answer, Memory>
    requires asks { (c : Command) × AsksForVerify (map string_bytes names.now) c }
    ensures replies { (c : Command) → AsksForVerify (map string_bytes names.now) c →
        IfOk result (λ a. Replies c (F.holds files.old) (F.faults files.old) (F.faults files.new)
        a.status a.text.items) }
    ensures same_files { F.holds files.new ≡ F.holds files.old }
    ensures file_faults { F.faults files.old ≤ F.faults files.new }
{
    let image = names[0].as_str();
    let notes = names[1].as_str();
    let bytes = match files.load(alloc, image, usize::MAX) {
        Ok(bytes) => bytes,
        Err(LoadFault::Failed) => return not_read(alloc, image),
        Err(LoadFault::Memory) => return Err(Memory),
    };
    match files.load(alloc, notes, usize::MAX) {
        Ok(more) => verify_image(alloc, bytes.as_slice(), more.as_slice()),
        Err(LoadFault::Failed) => not_read(alloc, notes),
        Err(LoadFault::Memory) => Err(Memory),
    }
}
