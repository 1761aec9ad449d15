//! Where a saved run begins in a file.

ghost use Rattle.std.specs.Prelude.{◌≡◌, Ok, true, false, length};
ghost use Rattle.verse_image.specs.Reading.{Gives, letter_at, mark_at};
ghost use Rattle.run_save_format.specs.Format.{mark, saved_word};
ghost use Rattle.run_save_format.specs.Whole.{behind_word, start_at};

use verse_image::faults::ReadFault;
use verse_image::numbers::{bad, byte};

/// How the line begins behind which a saved run stands.
const SAVED_WORD: &[u8] = b"= saved ";

#[tactic(auto, using(crate::proofs::WordSteps::begins_with))]
fn begins(bytes: &[u8]) -> bool
    ensures { result ≡ behind_word saved_word bytes.now }
{
    bytes.starts_with(SAVED_WORD)
}

/// The bytes behind the first line that begins with `= saved `.
#[tactic(auto, unfolding(run_save_format::specs::Whole::start_at))]
pub fn start(file: &[u8]) -> Result<&[u8], ReadFault>
    ensures { Gives (λ x. x.now) result (start_at true false file.now) }
{
    let mut line_begins = true;
    let mut is_saved = false;
    let mut rest = file;
    'bytes: while let [first, behind @ ..] = rest {
        is_saved = is_saved || (line_begins && begins(rest));
        line_begins = *first == b'\n';
        if is_saved && line_begins {
            return Ok(behind);
        }
        rest = behind;
    }
    Err(bad(1, 0))
}

#[tactic(auto, unfolding(verse_image::specs::Reading::letter_at))]
fn letter(letter: u8, left: usize, bytes: &[u8]) -> Result<&[u8], ReadFault>
    ensures { Gives (λ x. x.now) result (letter_at letter left bytes.now) }
{
    let (first, rest) = byte(bytes)?;
    if first == letter {
        Ok(rest)
    } else {
        Err(bad(1, left))
    }
}

/// The bytes behind the mark and the version.
pub fn after_mark(bytes: &[u8]) -> Result<&[u8], ReadFault>
    ensures { Gives (λ x. x.now) result (mark_at mark (length bytes.now) bytes.now) }
{
    let left = bytes.len();
    let rest = letter(b'V', left, bytes)?;
    let rest = letter(b'S', left, rest)?;
    let rest = letter(b'S', left, rest)?;
    let rest = letter(b'V', left, rest)?;
    letter(1, left, rest)
}
