//! What comes of the files of a program: the program, or why there is none.

ghost use Rattle.std.specs.Prelude.{◌≡◌, ◌≤◌, IfOk, length, map, string_bytes};
ghost use Rattle.verse_top_args.specs.Words.{AreFiles};
ghost use Rattle.verse_top.specs.Fronted.{Fronts, Judged};

use crate::answers::{not_read, refused, too_large};
use crate::loading::{Loading, load_all};
use std::alloc::Global;
use verse_accept::{Accepted, accept};
use verse_base::refusals::{Front, Memory};
use verse_outside::files::Files;
use verse_rules::programs::Checked;
use verse_top_texts::answers::Answer;
use verse_tree_items::programs::TypedProgram;

/// What came of the files of a program.
#[derive(Drop)]
pub(crate) enum Fronted {
    /// The program that they are.
    Accepted(TypedProgram),
    /// That one was not read, or that they are refused.
    Refused(Answer),
}

/// Loads the files of these names, and accepts the program in them or refuses it.
pub(crate) fn front<F: Files>(
    alloc: Global,
    names: &[String],
    files: &mut F,
) -> Result<Fronted, Memory>
    requires { AreFiles (map string_bytes names.now) }
    ensures comes { IfOk result (λ f. Fronts (F.holds files.old) (F.faults files.old)
        (F.faults files.new) (map string_bytes names.now) f) }
    ensures same { F.holds files.new ≡ F.holds files.old }
    ensures later { F.faults files.old ≤ F.faults files.new }
{
    match load_all(alloc, names, files)? {
        Loading::All(loaded) => judge(alloc, names, loaded.as_slice()),
        Loading::TooLarge(file) => {
            let answer = too_large(alloc, names, file)?;
            Ok(Fronted::Refused(answer))
        }
        Loading::Failed(file) => {
            let answer = not_read(alloc, names[file as usize].as_str())?;
            Ok(Fronted::Refused(answer))
        }
    }
}

/// Accepts the program in files that hold these bytes, or refuses it.
pub(crate) fn judge(alloc: Global, names: &[String], files: &[Vec<u8>]) -> Result<Fronted, Memory>
    requires some { 1 ≤ length files.now }
    requires few { length files.now ≤ 16 }
    ensures { IfOk result (λ f. Judged (map string_bytes names.now)
        (map (λ b. b.items) files.now) f) }
{
    match accept(alloc, files) {
        Ok(accepted) => Ok(Fronted::Accepted(typed(accepted))),
        Err(Front::Refused(refusal)) => Ok(Fronted::Refused(refused(alloc, names, refusal)?)),
        Err(Front::Memory) => Err(Memory),
    }
}

/// The program with its names and types.
fn typed(accepted: Accepted) -> TypedProgram
    ensures tree { result.tree ≡ accepted.tree }
    ensures names { result.names ≡ accepted.checked.names }
    ensures types { result.typed ≡ accepted.checked.typed }
{
    let Accepted { tree, checked } = accepted;
    let Checked { names, typed } = checked;
    TypedProgram::new(tree, names, typed)
}
