//! The line before what is saved of a run.

ghost use Rattle.std.specs.Prelude.{◌≡◌, IfOk};
ghost use Rattle.verse_top_save.specs.Saving.{saved_line};
ghost use Rattle.verse_top_texts.specs.Endings.{ended};
ghost use Rattle.verse_value.specs.declared.runs.Ending.TheVariants as ending;

use std::alloc::Global;
use verse_base::refusals::Memory;
use verse_base::texts::natural;

/// The line that tells that a run was saved, with its line feed: `now` is the moment of the last
/// turn in milliseconds, `steps` the steps spent, and `live` the waits that are left.
pub(crate) fn saved_text(alloc: Global, now: u64, steps: u64, live: u64) -> Result<Vec<u8>, Memory>
    ensures { IfOk result (λ text. text.items ≡ saved_line (ended ending.Until now steps live)) }
{
    let mut out = Vec::new(alloc);
    out.extend_from_slice(b"= saved at ")?;
    natural(now, &mut out)?;
    out.extend_from_slice(b" steps ")?;
    natural(steps, &mut out)?;
    out.extend_from_slice(b" live ")?;
    natural(live, &mut out)?;
    out.push(b'\n')?;
    Ok(out)
}
