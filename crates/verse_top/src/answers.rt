//! What is answered at once: a status, and the text that goes with it.

ghost use Rattle.std.specs.Prelude.{◌≡◌, IfOk, IsSome, map, string_bytes};
ghost use Rattle.verse_base.specs.RuleText.{rule_text_of};
ghost use Rattle.verse_top_texts.specs.Refusals.{refusal_line};
ghost use Rattle.verse_lex.specs.Cut.{first_place};
ghost use Rattle.verse_accept.specs.Fronts.{refusal};
ghost use Rattle.verse_top_texts.specs.Verdicts.{ok_line};
ghost use Rattle.verse_top.specs.Answers.{AnsweredOnce, ExecRunsWhatIsBuilt, read_line};
ghost use Rattle.verse_top.specs.Ends.{EachEndsSo};

use std::alloc::Global;
use verse_base::places::Place;
use verse_base::refusals::{Memory, Refusal, Rule};
use verse_base::rules::FILE_TOO_LARGE;
use verse_top_texts::answers::Answer;
use verse_top_texts::refusals::refusal_text;
use verse_top_texts::verdicts::ok_text;

/// Over files that tell what they hold a command has one answer.
pub fn answered_once()
    ensures { AnsweredOnce }
{}

/// What follows of each way to end for the command that the words are: which endings have an
/// answer, and which want of memory, absent files or words that are none.
pub fn each_ends_so()
    ensures { EachEndsSo }
{}

/// `exec` of what `build` wrote writes what `run` writes with the same options.
pub fn exec_runs_what_is_built()
    ensures { ExecRunsWhatIsBuilt }
{}

/// That a program is accepted.
pub(crate) fn checked(alloc: Global) -> Result<Answer, Memory>
    ensures { IfOk result (λ a. (a.status ≡ 0) × (a.text.items ≡ ok_line)) }
{
    let text = ok_text(alloc)?;
    Ok(Answer { status: 0, text })
}

/// That a program in the files of these names is refused.
pub(crate) fn refused(alloc: Global, names: &[String], refusal: Refusal) -> Result<Answer, Memory>
    requires { IsSome (rule_text_of refusal.rule.0) }
    ensures { IfOk result (λ a. (a.status ≡ 1) ×
        (a.text.items ≡ refusal_line (map string_bytes names.now) refusal)) }
{
    let text = refusal_text(alloc, names, refusal)?;
    Ok(Answer { status: 1, text })
}

/// The refusal of the file of this number, which is too large.
pub(crate) fn too_large(alloc: Global, names: &[String], file: u32) -> Result<Answer, Memory>
    ensures { IfOk result (λ a. (a.status ≡ 1) ×
        (a.text.items ≡ refusal_line (map string_bytes names.now) (refusal 2 (first_place file)))) }
{
    let place = Place {
        file,
        line: 1,
        col: 1,
    };
    refused(
        alloc,
        names,
        Refusal {
            rule: Rule(FILE_TOO_LARGE),
            place,
        },
    )
}

/// That a file was not read.
pub(crate) fn not_read(alloc: Global, file: &str) -> Result<Answer, Memory>
    ensures { IfOk result (λ a. (a.status ≡ 6) × (a.text.items ≡ read_line file.now)) }
{
    let mut text = Vec::new(alloc);
    text.extend_from_slice(b"= read ")?;
    text.extend_from_slice(file.as_bytes())?;
    text.push(b'\n')?;
    Ok(Answer { status: 6, text })
}
