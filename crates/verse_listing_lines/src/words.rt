//! Lines and their words.

ghost use Rattle.std.specs.Prelude.{◌≡◌, ◌∷◌, [], ◌<◌, length, IfSome, MatchOption};
ghost use Rattle.std.specs.Prelude.{option_copied};
ghost use Rattle.verse_listing_lines.specs.Lines.{pieces, words, numbers, numbers_behind};
ghost use Rattle.verse_listing_lines.specs.Lines.{is_letter};
ghost use Rattle.verse_listing_lines.specs.Lines.{is_name};
ghost use Rattle.verse_listing_lines.specs.Answers.{Gives, with_piece, words_left};

use crate::faults::{FORM, LineFault};
use std::alloc::Global;
use verse_listing_format::numbers::number;

/// The bytes before the first of these, and those behind it. None where there is none.
pub fn cut(end: u8, bytes: &[u8]) -> Option<(&[u8], &[u8])>
    ensures parts { MatchOption result (pieces end bytes.now ≡ ([], bytes.now))
        (λ x. pieces end bytes.now ≡ with_piece x.0.now (pieces end x.1.now)) }
    ensures shorter { IfSome result (λ x. length x.1.now < length bytes.now) }
{
    let mut at = 0;
    'bytes: while at < bytes.len() && bytes[at] != end {
        at += 1;
    }
    let (piece, behind) = bytes.split_at(at);
    match behind {
        [] => None,
        [_, rest @ ..] => Some((piece, rest)),
    }
}

/// The first word of a line, and what is left behind it.
pub fn first_word(line: &[u8]) -> (&[u8], Option<&[u8]>)
    ensures words { words line.now ≡ result.0.now ∷ words_left (option_copied result.1) }
    ensures shorter { IfSome result.1 (λ r. length r.now < length line.now) }
{
    match cut(b' ', line) {
        Some((word, rest)) => (word, Some(rest)),
        None => (line, None),
    }
}

/// The numbers that the words left of a line are.
pub fn numbers(alloc: Global, line: Option<&[u8]>) -> Result<Vec<Option<i64>>, LineFault>
    ensures { Gives (λ v. v.items) result (numbers (words_left (option_copied line.entry))) }
{
    let mut all = Vec::new(alloc);
    let mut left = line;
    'words: while let Some(line) = left {
        let (word, rest) = first_word(line);
        let Some(number) = number(word) else {
            return Err(LineFault::Broken(FORM));
        };
        all.push(number)?;
        left = rest;
    }
    Ok(all)
}

/// The numbers of a line that begins with this word.
#[tactic(auto, unfolding(crate::specs::Lines::numbers_behind))]
pub fn numbers_behind(
    alloc: Global,
    keyword: &[u8],
    line: &[u8],
) -> Result<Vec<Option<i64>>, LineFault>
    ensures { Gives (λ v. v.items) result (numbers_behind keyword.now (words line.now)) }
{
    let (word, rest) = first_word(line);
    if word == keyword {
        numbers(alloc, rest)
    } else {
        Err(LineFault::Broken(FORM))
    }
}

fn is_letter(byte: u8) -> bool
    ensures { result ≡ is_letter byte }
{
    byte.is_ascii_uppercase() || byte.is_ascii_lowercase()
}

/// Whether a word is one letter or more.
pub fn is_name(word: &[u8]) -> bool
    ensures { result ≡ is_name word.now }
{
    if word.is_empty() {
        return false;
    }
    'letters: for byte in word {
        if !is_letter(*byte) {
            return false;
        }
    }
    true
}
