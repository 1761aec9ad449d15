//! What is done with an accepted program.

ghost use Rattle.std.specs.Prelude.{◌≡◌, ◌≤◌, ℕ, ℤ, List, IfOk, map, option_copied};
ghost use Rattle.verse_code.specs.Validity.{Valid};
ghost use Rattle.verse_tree.specs.ItemView.{item_of};
ghost use Rattle.verse_outside.specs.Held.{Holding};
ghost use Rattle.verse_top_args.specs.Words.{Command, Inputs, files_of};
ghost use Rattle.verse_top_args.specs.Requests.{AsksFor, IsWithin, options_with};
ghost use Rattle.verse_top_exec.specs.Executions.{IsNothing};
ghost use Rattle.verse_top_exec.specs.Leaving.{Leaves};
ghost use Rattle.verse_top.specs.Answers.{Answers, AreNoted, Begins, IsBuilt, Means};
ghost use Rattle.verse_top.specs.Loading.{AreLoaded};
ghost use Rattle.verse_top.specs.Meaning.{Does, MeansSoFar, code_from};
ghost use Rattle.verse_top.specs.Programs.{IsAccepted, IsForProgram};

use crate::answers::checked;
use crate::writing::write_answer;
use lower_bounds::code_is_valid;
use lower_simulation_runs::{code_means_the_same, turns_are_the_same};
use note_found::tables_agree;
use std::alloc::Global;
use verse_accept_laws::accepted_can_be_followed;
use verse_base::refusals::Memory;
use verse_code::codes::Code;
use verse_image::encoding::encode;
use verse_lower::{LowerFault, lower};
use verse_outside::sinks::Sink;
use verse_top_args::commands::{Request, Running};
use verse_top_exec::asking::Asked;
use verse_top_exec::executing::run_code;
use verse_top_exec::stops::Stop;
use verse_top_texts::answers::Answer;
use verse_tree_items::programs::TypedProgram;
use verse_verify_writer::writing::write;

/// Does what the request asks for of the program in its files.
pub(crate) fn proceed<S: Sink>(
    alloc: Global,
    request: Request<'_>,
    program: TypedProgram,
    out: &mut S,
) -> Result<u8, Stop>
    requires program { IsForProgram request }
    requires asks { (c : Command) × AsksFor request c }
    requires accepted { (files : List (List ℕ)) × IsAccepted files program }
    ensures leaves { (held : Holding) (c : Command) (files : List (List ℕ)) →
        AsksFor request.entry c → AreLoaded held (files_of c) files → IsAccepted files program →
        Leaves (Answers held c) (Begins held c) (S.faults out.old) (S.faults out.new)
        (S.taken out.old) (S.taken out.new) result }
    ensures later { S.faults out.old ≤ S.faults out.new }
{
    match request {
        Request::Run(running) => run(alloc, running, program, out),
        Request::Exec(_) | Request::Save(_) | Request::Resume(_) => unreachable!(),
        Request::List(_) | Request::Assemble(_) => unreachable!(),
        Request::Verify(_) | Request::Load(_) => unreachable!(),
        Request::Check(_) => {
            let answer = checked(alloc)?;
            write_answer(answer, out)
        }
        Request::Build(_) => build(alloc, program, out),
        Request::Note(_) => note(alloc, program, out),
    }
}

/// Runs the program, and writes its run as it goes on.
fn run<S: Sink>(
    alloc: Global,
    running: Running<'_>,
    program: TypedProgram,
    out: &mut S,
) -> Result<u8, Stop>
    requires within { IsWithin running }
    requires lists { (ns : List ℤ) × Inputs (option_copied running.inputs) ns }
    requires accepted { (files : List (List ℕ)) × IsAccepted files program }
    ensures leaves { (ns : List ℤ) → Inputs (option_copied running.entry.inputs) ns →
        Leaves (Means (map item_of program.tree.items) (options_with running.entry ns)
        program.tree.files)
        (MeansSoFar (map item_of program.tree.items) (options_with running.entry ns))
        (S.faults out.old) (S.faults out.new) (S.taken out.old) (S.taken out.new) result }
    ensures later { S.faults out.old ≤ S.faults out.new }
{
    let inputs = running.ints(alloc)?;
    let code = lowered(alloc, program)?;
    let asked = Asked {
        inputs: inputs.as_slice(),
        steps: running.steps,
        until: running.until,
        heap: running.heap,
    };
    run_code(alloc, &code, asked, out)
}

/// Writes the image of the program's code.
fn build<S: Sink>(alloc: Global, program: TypedProgram, out: &mut S) -> Result<u8, Stop>
    requires { (files : List (List ℕ)) × IsAccepted files program }
    ensures leaves { Leaves (IsBuilt (map item_of program.tree.items) program.tree.files) IsNothing
        (S.faults out.old) (S.faults out.new) (S.taken out.old) (S.taken out.new) result }
    ensures later { S.faults out.old ≤ S.faults out.new }
{
    let answer = built(alloc, program)?;
    write_answer(answer, out)
}

/// The image of the program's code.
fn built(alloc: Global, program: TypedProgram) -> Result<Answer, Memory>
    requires { (files : List (List ℕ)) × IsAccepted files program }
    ensures { IfOk result (λ a. IsBuilt (map item_of program.tree.items) program.tree.files
        a.status a.text.items) }
{
    let code = lowered(alloc, program)?;
    let text = encode(alloc, &code)?;
    Ok(Answer { status: 0, text })
}

/// Writes the notes of the program's code.
fn note<S: Sink>(alloc: Global, program: TypedProgram, out: &mut S) -> Result<u8, Stop>
    requires { (files : List (List ℕ)) × IsAccepted files program }
    ensures leaves { Leaves (AreNoted (map item_of program.tree.items) program.tree.files) IsNothing
        (S.faults out.old) (S.faults out.new) (S.taken out.old) (S.taken out.new) result }
    ensures later { S.faults out.old ≤ S.faults out.new }
{
    let answer = noted(alloc, &program)?;
    write_answer(answer, out)
}

/// The notes of the program's code.
fn noted(alloc: Global, program: &TypedProgram) -> Result<Answer, Memory>
    requires { (files : List (List ℕ)) × IsAccepted files program.now }
    ensures { IfOk result (λ a. AreNoted (map item_of program.now.tree.items)
        program.now.tree.files a.status a.text.items) }
{
    tables_agree();
    let code = code_of(alloc, program)?;
    let notes = verse_note::note(alloc, program.get(), &code)?;
    let text = write(alloc, &code, &notes)?;
    Ok(Answer { status: 0, text })
}

/// The code of the program, which does what the program means. The tree is let go.
pub(crate) fn lowered(alloc: Global, program: TypedProgram) -> Result<Code, Memory>
    requires { (files : List (List ℕ)) × IsAccepted files program }
    ensures code { IfOk result (λ c. c ≡ code_from (map item_of program.tree.items)
        program.tree.files) }
    ensures valid { IfOk result (λ c. Valid c) }
    ensures does { IfOk result (λ c. Does c (map item_of program.tree.items)) }
{
    code_of(alloc, &program)
}

/// The code of the program, which does what the program means.
fn code_of(alloc: Global, program: &TypedProgram) -> Result<Code, Memory>
    requires { (files : List (List ℕ)) × IsAccepted files program.now }
    ensures code { IfOk result (λ c. c ≡ code_from (map item_of program.now.tree.items)
        program.now.tree.files) }
    ensures valid { IfOk result (λ c. Valid c) }
    ensures does { IfOk result (λ c. Does c (map item_of program.now.tree.items)) }
{
    accepted_can_be_followed();
    code_is_valid();
    code_means_the_same();
    turns_are_the_same();
    match lower(alloc, program.get()) {
        Ok(code) => Ok(code),
        Err(LowerFault::Memory) => Err(Memory),
        Err(LowerFault::TooLarge) => unreachable!(),
    }
}
