//! Texts of lines, in hexadecimal.

ghost use Rattle.std.specs.Prelude.{◌≡◌, option_copied, IfSome, ◌≤◌};
ghost use Rattle.verse_listing_lines.specs.Lines.{digit_of, bytes_of, text_of};
ghost use Rattle.verse_listing_lines.specs.Answers.{Gives, words_left};

use crate::faults::{FIELD, FORM, LineFault};
use crate::fields::TEXT_END;
use crate::words::first_word;
use std::alloc::Global;
use verse_code::tables::Table;

/// What a lower hexadecimal digit is worth.
fn digit_of(byte: u8) -> Option<u8>
    ensures value { result ≡ digit_of byte }
    ensures within { IfSome result (λ d. d ≤ 15) }
{
    match byte {
        48..=57 => Some(byte - 48),
        97..=102 => Some(byte - 87),
        _ => None,
    }
}

/// The bytes of a word with two digits for each.
fn bytes_of(alloc: Global, word: &[u8]) -> Result<Table<u8>, LineFault>
    ensures { Gives (λ x. x) result (bytes_of word.now) }
{
    let mut all = Table::new(alloc);
    let mut left = word;
    'digits: while let [high, low, rest @ ..] = left {
        let (Some(high), Some(low)) = (digit_of(*high), digit_of(*low)) else {
            return Err(LineFault::Broken(FORM));
        };
        all.push(high * 16 + low)?;
        left = rest;
    }
    if left.is_empty() {
        Ok(all)
    } else {
        Err(LineFault::Broken(FORM))
    }
}

/// The text that the words left of a line are.
#[tactic(auto, unfolding(crate::specs::Lines::text_of))]
pub fn text_of(alloc: Global, line: Option<&[u8]>) -> Result<Table<u8>, LineFault>
    ensures { Gives (λ x. x) result (text_of (words_left (option_copied line.entry))) }
{
    let Some(line) = line else {
        return Ok(Table::new(alloc));
    };
    let (word, others) = first_word(line);
    if word.is_empty() || others.is_some() {
        return Err(LineFault::Broken(FORM));
    }
    let bytes = bytes_of(alloc, word)?;
    if (bytes.len() as u64) < TEXT_END {
        Ok(bytes)
    } else {
        Err(LineFault::Broken(FIELD))
    }
}
