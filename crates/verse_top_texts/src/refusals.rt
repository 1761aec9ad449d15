//! The line of a refusal.
ghost use Rattle.std.specs.Prelude.{◌≡◌, ◌++◌, IfOk, OnOk, IsSome, map, string_bytes};
ghost use Rattle.verse_base.specs.RuleText.{rule_text_of};
ghost use Rattle.verse_top_texts.specs.Refusals.{file_before, line_and_column, refusal_line};
ghost use Rattle.verse_top_texts.specs.Refusals.{rule_code};

use std::alloc::Global;
use verse_base::places::Place;
use verse_base::refusals::{Memory, Refusal, Rule};
use verse_base::rule_texts::rule_text;
use verse_base::texts::natural;

/// The line that tells the refusal of a program in files of these names, with its line feed. The
/// name of the file stands in it where there are several.
pub fn refusal_text(alloc: Global, names: &[String], refusal: Refusal) -> Result<Vec<u8>, Memory>
    requires { IsSome (rule_text_of refusal.rule.0) }
    ensures { IfOk result (λ text. text.items ≡ refusal_line (map string_bytes names.now) refusal) }
{
    let mut out = Vec::new(alloc);
    push_file(names, refusal.place.file, &mut out)?;
    push_line_and_column(refusal.place, &mut out)?;
    out.push(b' ')?;
    push_code(refusal.rule, &mut out)?;
    out.push(b' ')?;
    out.extend_from_slice(rule_text(refusal.rule).as_bytes())?;
    out.push(b'\n')?;
    Ok(out)
}

fn push_file(names: &[String], file: u32, out: &mut Vec<u8>) -> Result<(), Memory>
    ensures { OnOk result (out.new.items ≡ out.old.items ++
        file_before (map string_bytes names.now) file) }
{
    if names.len() < 2 {
        return Ok(());
    }
    if let Some(name) = names.get(file as usize) {
        out.extend_from_slice(name.as_bytes())?;
    }
    out.push(b':')?;
    Ok(())
}

fn push_line_and_column(place: Place, out: &mut Vec<u8>) -> Result<(), Memory>
    ensures { OnOk result (out.new.items ≡ out.old.items ++ line_and_column place) }
{
    natural(u64::from(place.line), out)?;
    out.push(b':')?;
    natural(u64::from(place.col), out)?;
    Ok(())
}

fn push_code(rule: Rule, out: &mut Vec<u8>) -> Result<(), Memory>
    ensures { OnOk result (out.new.items ≡ out.old.items ++ rule_code rule.0) }
{
    out.extend_from_slice(b"E0")?;
    if rule.0 < 10 {
        out.push(b'0')?;
    }
    natural(u64::from(rule.0), out)?;
    Ok(())
}
