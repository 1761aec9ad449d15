//! What is done with one file that is no program.

ghost use Rattle.std.specs.Prelude.{◌≡◌, ◌≤◌, ◌∷◌, [], ℕ, ℤ, List, length, option_copied};
ghost use Rattle.verse_outside.specs.Causes.{Rose};
ghost use Rattle.verse_outside.specs.Held.{Holding, Lacks};
ghost use Rattle.verse_top_args.specs.Words.{Command, Inputs, files_of};
ghost use Rattle.verse_top_args.specs.Requests.{AreNamed, AsksFor, IsWithin, options_with};
ghost use Rattle.verse_top_exec.specs.Executions.{Executes, ExecutesSoFar, IsNothing};
ghost use Rattle.verse_top_exec.specs.Leaving.{Leaves};
ghost use Rattle.verse_top_save.specs.Saving.{Saves, SavesSoFar};
ghost use Rattle.verse_top.specs.Answers.{Answers, Begins, IsAnswer, read_line};
ghost use Rattle.verse_top.specs.Ends.{Replies};
ghost use Rattle.verse_top.specs.Loading.{IsRead};
ghost use Rattle.verse_top.specs.Programs.{IsForFile};

use crate::answers::not_read;
use crate::writing::write_answer;
use std::alloc::Global;
use verse_outside::files::{Files, LoadFault};
use verse_outside::sinks::Sink;
use verse_top_args::commands::{Request, Running};
use verse_top_exec::asking::Asked;
use verse_top_exec::executing::exec;
use verse_top_exec::stops::Stop;
use verse_top_listing::{assemble_listing, list_image};
use verse_top_resume::resuming::resume_file;
use verse_top_save::saving::save_image;

/// Loads the file whole, and does with its bytes what the request asks for.
pub(crate) fn over_file<F: Files, S: Sink>(
    alloc: Global,
    request: Request<'_>,
    files: &mut F,
    out: &mut S,
) -> Result<u8, Stop>
    requires file { IsForFile request }
    requires asks { (c : Command) × AsksFor request c }
    ensures leaves { (c : Command) → AsksFor request.entry c →
        Leaves (Replies c (F.holds files.old) (F.faults files.old) (F.faults files.new))
        (Begins (F.holds files.old) c) (S.faults out.old) (S.faults out.new) (S.taken out.old)
        (S.taken out.new) result }
    ensures same_files { F.holds files.new ≡ F.holds files.old }
    ensures file_faults { F.faults files.old ≤ F.faults files.new }
    ensures sink_faults { S.faults out.old ≤ S.faults out.new }
{
    let name = request.files()[0].as_str();
    match files.load(alloc, name, usize::MAX) {
        Ok(bytes) => over_bytes(alloc, request, bytes.as_slice(), out),
        Err(LoadFault::Failed) => {
            let answer = not_read(alloc, name)?;
            write_answer(answer, out)
        }
        Err(LoadFault::Memory) => Err(Stop::Memory),
    }
}

/// Does with the bytes of the file what the request asks for.
fn over_bytes<S: Sink>(
    alloc: Global,
    request: Request<'_>,
    bytes: &[u8],
    out: &mut S,
) -> Result<u8, Stop>
    requires file { IsForFile request }
    requires asks { (c : Command) × AsksFor request c }
    ensures leaves { (held : Holding) (c : Command) (name : List ℕ) → AsksFor request.entry c →
        files_of c ≡ name ∷ [] → IsRead held name bytes.now →
        Leaves (Answers held c) (Begins held c) (S.faults out.old) (S.faults out.new)
        (S.taken out.old) (S.taken out.new) result }
    ensures later { S.faults out.old ≤ S.faults out.new }
{
    match request {
        Request::Exec(running) => run_image(alloc, running, bytes, out),
        Request::Save(running) => save_run(alloc, running, bytes, out),
        Request::Resume(resuming) => {
            resume_file(alloc, bytes, resuming.until, resuming.heap, out)
        }
        Request::List(_) => {
            let answer = list_image(alloc, bytes)?;
            write_answer(answer, out)
        }
        Request::Assemble(_) => {
            let answer = assemble_listing(alloc, bytes)?;
            write_answer(answer, out)
        }
        Request::Run(_) | Request::Check(_) | Request::Build(_) => unreachable!(),
        Request::Note(_) | Request::Verify(_) | Request::Load(_) => unreachable!(),
    }
}

/// Runs the image that these bytes are, as the words ask for it.
fn run_image<S: Sink>(
    alloc: Global,
    running: Running<'_>,
    bytes: &[u8],
    out: &mut S,
) -> Result<u8, Stop>
    requires within { IsWithin running }
    requires lists { (ns : List ℤ) × Inputs (option_copied running.inputs) ns }
    ensures leaves { (ns : List ℤ) → Inputs (option_copied running.entry.inputs) ns →
        Leaves (Executes bytes.now (options_with running.entry ns))
        (ExecutesSoFar bytes.now (options_with running.entry ns)) (S.faults out.old)
        (S.faults out.new) (S.taken out.old) (S.taken out.new) result }
    ensures later { S.faults out.old ≤ S.faults out.new }
{
    let inputs = running.ints(alloc)?;
    let asked = Asked {
        inputs: inputs.as_slice(),
        steps: running.steps,
        until: running.until,
        heap: running.heap,
    };
    exec(alloc, bytes, asked, out)
}

/// Runs the image that these bytes are and saves the run at its horizon, as the words ask for it.
fn save_run<S: Sink>(
    alloc: Global,
    running: Running<'_>,
    bytes: &[u8],
    out: &mut S,
) -> Result<u8, Stop>
    requires within { IsWithin running }
    requires lists { (ns : List ℤ) × Inputs (option_copied running.inputs) ns }
    ensures leaves { (ns : List ℤ) → Inputs (option_copied running.entry.inputs) ns →
        Leaves (Saves bytes.now (options_with running.entry ns))
        (SavesSoFar bytes.now (options_with running.entry ns)) (S.faults out.old)
        (S.faults out.new) (S.taken out.old) (S.taken out.new) result }
    ensures later { S.faults out.old ≤ S.faults out.new }
{
    let inputs = running.ints(alloc)?;
    let asked = Asked {
        inputs: inputs.as_slice(),
        steps: running.steps,
        until: running.until,
        heap: running.heap,
    };
    save_image(alloc, bytes, asked, out)
}
