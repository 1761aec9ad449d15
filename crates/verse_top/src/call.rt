//! The top call.

ghost use Rattle.std.specs.Prelude.{◌≡◌, ◌≢◌, ◌≤◌, ℕ, List, map, string_bytes};
ghost use Rattle.verse_top_args.specs.Words.{Command, Says};
ghost use Rattle.verse_top_args.specs.Requests.{AreNamed, AsksFor};
ghost use Rattle.verse_top_exec.specs.Leaving.{Leaves};
ghost use Rattle.verse_top.specs.Answers.{Begins};
ghost use Rattle.verse_top.specs.Ends.{Ends, Finishes, Replies};
ghost use Rattle.verse_top.specs.Programs.{IsForProgram};
ghost use Rattle.verse_top.specs.Statuses.{RunsProgram};

use crate::executing::over_file;
use crate::fronts::{Fronted, front};
use crate::loads::load;
use crate::pairs::over_pair;
use crate::programs::proceed;
use crate::writing::write_answer;
use std::alloc::Global;
use verse_accept_sound::accepted_items_are_never_stuck;
use verse_outside::files::Files;
use verse_outside::sinks::{Sink, write_all};
use verse_top_args::commands::{Request, find_request};
use verse_top_exec::stops::Stop;

/// Does all that the program does for the words after its name, and answers the status with which
/// it ends. What is written goes to `out` alone, refusals included.
pub fn verse<F: Files, S: Sink>(alloc: Global, words: &[String], files: &mut F, out: &mut S) -> u8
    // What is to be told for these words over these files was written whole, and its status is the
    // answer; or the sink failed, and the status is 7.
    ensures ends { Ends (map string_bytes words.now) (F.holds files.old) (F.faults files.old)
        (F.faults files.new) (S.faults out.old) (S.faults out.new) (S.taken out.old)
        (S.taken out.new) result }
    // 8 is the status of no program that is run: no run of an accepted program ends stuck.
    ensures never_stuck { (c : Command) → RunsProgram c → Says (map string_bytes words.now) c →
        result ≢ 8 }
    ensures same_files { F.holds files.new ≡ F.holds files.old }
    ensures file_faults { F.faults files.old ≤ F.faults files.new }
    ensures sink_faults { S.faults out.old ≤ S.faults out.new }
{
    accepted_items_are_never_stuck();
    let Some(request) = find_request(words) else {
        return finish(out, b"= words\n", 2);
    };
    tell(alloc, request, files, out)
}

/// Answers the request, with a line at the end where there is no memory.
fn tell<F: Files, S: Sink>(alloc: Global, request: Request<'_>, files: &mut F, out: &mut S) -> u8
    requires files { AreNamed request }
    requires asks { (c : Command) × AsksFor request c }
    ensures ends { (words : List (List ℕ)) (c : Command) → Says words c → AsksFor request.entry c →
        Ends words (F.holds files.old) (F.faults files.old) (F.faults files.new) (S.faults out.old)
        (S.faults out.new) (S.taken out.old) (S.taken out.new) result }
    ensures same_files { F.holds files.new ≡ F.holds files.old }
    ensures file_faults { F.faults files.old ≤ F.faults files.new }
    ensures sink_faults { S.faults out.old ≤ S.faults out.new }
{
    match answer(alloc, request, files, out) {
        Ok(status) => status,
        Err(Stop::Memory) => finish(out, b"= memory\n", 5),
        Err(Stop::Failed) => 7,
    }
}

/// Answers the request: over one file that is no program, over an image and its notes, over no
/// file, or over the files of a program.
fn answer<F: Files, S: Sink>(
    alloc: Global,
    request: Request<'_>,
    files: &mut F,
    out: &mut S,
) -> Result<u8, Stop>
    requires files { AreNamed request }
    requires asks { (c : Command) × AsksFor request c }
    ensures leaves { (c : Command) → AsksFor request.entry c →
        Leaves (Replies c (F.holds files.old) (F.faults files.old) (F.faults files.new))
        (Begins (F.holds files.old) c) (S.faults out.old) (S.faults out.new) (S.taken out.old)
        (S.taken out.new) result }
    ensures same_files { F.holds files.new ≡ F.holds files.old }
    ensures file_faults { F.faults files.old ≤ F.faults files.new }
    ensures sink_faults { S.faults out.old ≤ S.faults out.new }
{
    match request {
        Request::Exec(_) | Request::Save(_) | Request::Resume(_) => {
            over_file(alloc, request, files, out)
        }
        Request::List(_) | Request::Assemble(_) => over_file(alloc, request, files, out),
        Request::Verify(names) => over_pair(alloc, names, files, out),
        Request::Load(functions) => load(alloc, functions, out),
        Request::Run(_) | Request::Check(_) => over_program(alloc, request, files, out),
        Request::Build(_) | Request::Note(_) => over_program(alloc, request, files, out),
    }
}

/// Answers a request over the files of a program.
fn over_program<F: Files, S: Sink>(
    alloc: Global,
    request: Request<'_>,
    files: &mut F,
    out: &mut S,
) -> Result<u8, Stop>
    requires program { IsForProgram request }
    requires files { AreNamed request }
    requires asks { (c : Command) × AsksFor request c }
    ensures leaves { (c : Command) → AsksFor request.entry c →
        Leaves (Replies c (F.holds files.old) (F.faults files.old) (F.faults files.new))
        (Begins (F.holds files.old) c) (S.faults out.old) (S.faults out.new) (S.taken out.old)
        (S.taken out.new) result }
    ensures same_files { F.holds files.new ≡ F.holds files.old }
    ensures file_faults { F.faults files.old ≤ F.faults files.new }
    ensures sink_faults { S.faults out.old ≤ S.faults out.new }
{
    match front(alloc, request.files(), files)? {
        Fronted::Accepted(program) => proceed(alloc, request, program, out),
        Fronted::Refused(answer) => write_answer(answer, out),
    }
}

/// Writes the whole text and answers the status, or 7.
fn finish<S: Sink>(out: &mut S, text: &[u8], status: u8) -> u8
    ensures either { Finishes status text.now result (S.faults out.old) (S.faults out.new)
        (S.taken out.old) (S.taken out.new) }
    ensures later { S.faults out.old ≤ S.faults out.new }
{
    match write_all(out, text) {
        Ok(()) => status,
        Err(_) => 7,
    }
}
