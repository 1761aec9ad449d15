//! Marks.

ghost use Rattle.std.specs.Prelude.{◌≡◌, ◌∷◌, []};
ghost use Rattle.verse_lex.specs.Words.{look_up};
ghost use Rattle.verse_lex.specs.Marks.{doubles, singles};

use crate::tokens::Mark;

/// The mark that two bytes spell.
pub fn double_mark(b: u8, c: u8) -> Option<Mark>
    ensures { result ≡ look_up doubles (b ∷ c ∷ []) }
{
    match b {
        b':' => match c {
            b'=' => Some(Mark::Define),
            _ => None,
        },
        b'=' => match c {
            b'>' => Some(Mark::FatArrow),
            _ => None,
        },
        b'<' => match c {
            b'>' => Some(Mark::Differs),
            b'=' => Some(Mark::AtMost),
            _ => None,
        },
        b'>' => match c {
            b'=' => Some(Mark::AtLeast),
            _ => None,
        },
        b'+' => match c {
            b'=' => Some(Mark::PlusEquals),
            _ => None,
        },
        b'-' => match c {
            b'=' => Some(Mark::MinusEquals),
            b'>' => Some(Mark::Arrow),
            _ => None,
        },
        b'*' => match c {
            b'=' => Some(Mark::TimesEquals),
            _ => None,
        },
        b'.' => match c {
            b'.' => Some(Mark::DotDot),
            _ => None,
        },
        _ => None,
    }
}

/// The mark that one byte spells.
pub fn single_mark(b: u8) -> Option<Mark>
    ensures { result ≡ look_up singles (b ∷ []) }
{
    match b {
        b':' => Some(Mark::Colon),
        b'=' => Some(Mark::Equals),
        b'<' => Some(Mark::Below),
        b'>' => Some(Mark::Above),
        b'+' => Some(Mark::Plus),
        b'-' => Some(Mark::Minus),
        b'*' => Some(Mark::Times),
        b'/' => Some(Mark::Slash),
        b'.' => Some(Mark::Dot),
        b',' => Some(Mark::Comma),
        b';' => Some(Mark::Semicolon),
        b'(' => Some(Mark::RoundOpen),
        b')' => Some(Mark::RoundClose),
        b'[' => Some(Mark::SquareOpen),
        b']' => Some(Mark::SquareClose),
        b'{' => Some(Mark::BraceOpen),
        b'}' => Some(Mark::BraceClose),
        b'?' => Some(Mark::Question),
        _ => None,
    }
}
