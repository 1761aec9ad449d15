//! The characters of texts.

ghost use Rattle.std.specs.Prelude.{◌≡◌, ◌+◌, ◌≤◌, length};
ghost use Rattle.verse_lex.specs.Texts.{is_quoted, escape, further, text_chars, EndsWithin};

use crate::bytes::{first, is_at};
use crate::rules::{ESCAPE, UNEXPECTED};
use verse_base::refusals::Rule;

/// How the characters of a text end.
#[derive(Clone, Copy, Debug, PartialEq, Eq)]
pub enum Ending {
    /// By a quote, which is the last of so many bytes.
    Quote(usize),
    /// By a brace that opens a hole, which is the last of so many bytes.
    Brace(usize),
    /// By a byte that breaks a rule, behind so many bytes.
    Broken(Rule, usize),
    /// By the line's or the file's end.
    Line,
}

/// Whether a backslash before this character stands for the character.
pub fn is_quoted(b: u8) -> bool
    ensures { result ≡ is_quoted b }
{
    b == b'\\'
        || b == b'"'
        || b == b'\''
        || b == b'{'
        || b == b'}'
        || b == b'<'
        || b == b'>'
        || b == b'&'
        || b == b'#'
        || b == b'~'
}

/// What this byte stands for behind a backslash, if they are an escape.
pub fn escape(b: u8) -> Option<u8>
    ensures { result ≡ escape b }
{
    if b == b'n' {
        Some(b'\n')
    } else if b == b'r' {
        Some(b'\r')
    } else if b == b't' {
        Some(b'\t')
    } else if is_quoted(b) {
        Some(b)
    } else {
        None
    }
}

/// How the characters of a text end.
pub fn text_chars(bytes: &[u8]) -> Ending
    ensures chars { result ≡ text_chars bytes.now }
    ensures within { EndsWithin result (length bytes.now) }
{
    let mut rest = bytes;
    let mut count = 0usize;
    'chars: loop {
        let Some((b, more)) = first(rest) else {
            return Ending::Line;
        };
        if b == b'"' {
            return Ending::Quote(count + 1);
        }
        if b == b'{' {
            return Ending::Brace(count + 1);
        }
        if b == b'}' {
            return Ending::Broken(UNEXPECTED, count);
        }
        if b == b'\n' {
            return Ending::Line;
        }
        if b == b'\r' {
            if is_at(more, 0, b'\n') {
                return Ending::Line;
            }
            return Ending::Broken(UNEXPECTED, count);
        }
        if b == b'\\' {
            let Some((c, behind)) = first(more) else {
                return Ending::Broken(ESCAPE, count);
            };
            if escape(c).is_none() {
                return Ending::Broken(ESCAPE, count);
            }
            count += 2;
            rest = behind;
            continue;
        }
        count += 1;
        rest = more;
    }
}
