//! The run of the generated load.

ghost use Rattle.std.specs.Prelude.{◌≡◌, ◌≤◌, ◌∷◌, [], ℕ, List, IfOk, map};
ghost use Rattle.verse_tree.specs.ItemView.{item_of};
ghost use Rattle.verse_outside.specs.Held.{Holding};
ghost use Rattle.verse_top_args.specs.Words.{Command};
ghost use Rattle.verse_top_args.specs.Requests.{AsksForLoad};
ghost use Rattle.verse_top_exec.specs.Executions.{IsNothing};
ghost use Rattle.verse_top_exec.specs.Leaving.{Leaves};
ghost use Rattle.verse_top_load.specs.Load.{load_text_of};
ghost use Rattle.verse_top.specs.Answers.{Loads, MeansInShort};
ghost use Rattle.verse_top.specs.Meaning.{default_options};
ghost use Rattle.verse_top.specs.Programs.{IsAccepted};

use crate::fronts::{Fronted, judge};
use crate::programs::lowered;
use crate::writing::write_answer;
use std::alloc::Global;
use verse_base::refusals::Memory;
use verse_outside::sinks::Sink;
use verse_top_args::commands::{DEFAULT_STEPS, DEFAULT_UNTIL};
use verse_top_exec::asking::Asked;
use verse_top_exec::counting::count_run;
use verse_top_exec::stops::Stop;
use verse_top_load::load_text;
use verse_top_texts::answers::Answer;
use verse_tree_items::programs::TypedProgram;

/// Runs the load of so many functions, 2 to 1000, and writes how its run ended and how many lines
/// its trace has.
pub(crate) fn load<S: Sink>(alloc: Global, functions: u32, out: &mut S) -> Result<u8, Stop>
    requires few { functions ≤ 1000 }
    ensures leaves { Leaves (Loads functions) IsNothing (S.faults out.old) (S.faults out.new)
        (S.taken out.old) (S.taken out.new) result }
    ensures later { S.faults out.old ≤ S.faults out.new }
{
    let answer = loaded(alloc, functions)?;
    write_answer(answer, out)
}

/// What is told of the run of the load, or why it is refused.
fn loaded(alloc: Global, functions: u32) -> Result<Answer, Memory>
    requires few { functions ≤ 1000 }
    ensures { IfOk result (λ a. Loads functions a.status a.text.items) }
{
    let mut files = Vec::new(alloc);
    files.push(load_text(alloc, functions)?)?;
    match judge(alloc, &[], files.as_slice())? {
        Fronted::Accepted(program) => counted(alloc, program),
        Fronted::Refused(answer) => Ok(answer),
    }
}

/// Runs an accepted program without inputs, and tells how its run ended and how many lines its
/// trace has.
fn counted(alloc: Global, program: TypedProgram) -> Result<Answer, Memory>
    requires { (files : List (List ℕ)) × IsAccepted files program }
    ensures { IfOk result (λ a. MeansInShort (map item_of program.tree.items) default_options
        program.tree.files a.status a.text.items) }
{
    let code = lowered(alloc, program)?;
    let asked = Asked {
        inputs: &[],
        steps: DEFAULT_STEPS,
        until: DEFAULT_UNTIL,
        heap: false,
    };
    count_run(alloc, &code, asked)
}
