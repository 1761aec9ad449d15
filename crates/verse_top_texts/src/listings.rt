//! The line of a text that is no listing.
ghost use Rattle.std.specs.Prelude.{◌≡◌, IfOk};
ghost use Rattle.verse_top_texts.specs.Listings.{listing_line};

use std::alloc::Global;
use verse_base::refusals::Memory;
use verse_base::texts::natural;

/// The line that tells which rule of listings fails, and in which line from 1, with its line feed.
pub fn listing_text(alloc: Global, rule: u8, line: u64) -> Result<Vec<u8>, Memory>
    ensures { IfOk result (λ text. text.items ≡ listing_line rule line) }
{
    let mut out = Vec::new(alloc);
    out.extend_from_slice(b"= listing L")?;
    natural(u64::from(rule), &mut out)?;
    out.push(b' ')?;
    natural(line, &mut out)?;
    out.push(b'\n')?;
    Ok(out)
}
