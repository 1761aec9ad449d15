//! The line of what passed, and the line of notes that break a rule.
ghost use Rattle.std.specs.Prelude.{◌≡◌, IfOk};
ghost use Rattle.verse_top_texts.specs.Verdicts.{notes_line, ok_line};

use std::alloc::Global;
use verse_base::refusals::Memory;
use verse_base::texts::natural;

/// The line that tells that nothing is wrong, with its line feed.
pub fn ok_text(alloc: Global) -> Result<Vec<u8>, Memory>
    ensures { IfOk result (λ text. text.items ≡ ok_line) }
{
    let mut out = Vec::new(alloc);
    out.extend_from_slice(b"= ok\n")?;
    Ok(out)
}

/// The line that tells which rule notes break, and where: at which offset, number or operation,
/// with its line feed.
pub fn notes_text(alloc: Global, rule: u8, at: usize) -> Result<Vec<u8>, Memory>
    ensures { IfOk result (λ text. text.items ≡ notes_line rule at) }
{
    let mut out = Vec::new(alloc);
    out.extend_from_slice(b"= notes V")?;
    natural(u64::from(rule), &mut out)?;
    out.push(b' ')?;
    natural(at as u64, &mut out)?;
    out.push(b'\n')?;
    Ok(out)
}
