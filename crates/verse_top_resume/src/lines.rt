//! The line of a file that has no saved run.

ghost use Rattle.std.specs.Prelude.{◌≡◌, IfOk};
ghost use Rattle.verse_top_resume.specs.Resuming.{state_line};

use std::alloc::Global;
use verse_base::refusals::Memory;
use verse_base::texts::natural;

/// The line that tells which rule of saved runs fails, and at which offset, with its line feed.
pub(crate) fn state_text(alloc: Global, rule: u8, offset: usize) -> Result<Vec<u8>, Memory>
    ensures { IfOk result (λ text. text.items ≡ state_line rule offset) }
{
    let mut out = Vec::new(alloc);
    out.extend_from_slice(b"= state S")?;
    natural(u64::from(rule), &mut out)?;
    out.push(b' ')?;
    natural(offset as u64, &mut out)?;
    out.push(b'\n')?;
    Ok(out)
}
