//! Comments that begin with `<#` and end with their `#>`.

ghost use Rattle.std.specs.Prelude.{◌≡◌, ◌+◌, ◌≤◌, ◌∷◌, [], length};
ghost use Rattle.verse_lex.specs.Comments.{closes, opens, is_lone, beyond, closing, CloseWithin};

use crate::bytes::first;

/// Where a comment is closed.
#[derive(Clone, Copy, Debug, PartialEq, Eq)]
pub enum Close {
    /// Behind so many bytes.
    Closed(usize),
    /// Nowhere: behind so many bytes is a carriage return with no line feed behind it.
    Lone(usize),
    /// Nowhere in the file.
    Never,
}

/// Whether two bytes end a comment.
pub fn closes(b: u8, c: u8) -> bool
    ensures { result ≡ closes b c }
{
    b == b'#' && c == b'>'
}

/// Whether two bytes begin a comment.
pub fn opens(b: u8, c: u8) -> bool
    ensures { result ≡ opens b c }
{
    b == b'<' && c == b'#'
}

/// Whether the first byte is a carriage return that no line feed follows.
pub fn is_lone(b: u8, c: u8) -> bool
    ensures { result ≡ is_lone b c }
{
    b == b'\r' && c != b'\n'
}

/// Where a comment is closed, of which these bytes are behind its `<#`.
pub fn closing(bytes: &[u8]) -> Close
    ensures closes { result ≡ closing 1 bytes.now }
    ensures within { CloseWithin result (length bytes.now) }
{
    let mut rest = bytes;
    let mut count = 0usize;
    let mut depth = 1usize;
    'inside: while depth > 0 {
        let Some((b, more)) = first(rest) else {
            return Close::Never;
        };
        let Some((c, behind)) = first(more) else {
            return last(b, count);
        };
        if closes(b, c) {
            depth -= 1;
            count += 2;
            rest = behind;
            continue;
        }
        if opens(b, c) {
            depth += 1;
            count += 2;
            rest = behind;
            continue;
        }
        if is_lone(b, c) {
            return Close::Lone(count);
        }
        count += 1;
        rest = more;
    }
    Close::Closed(count)
}

/// What the file's last byte does to a comment that is open, behind so many bytes.
fn last(b: u8, count: usize) -> Close
    ensures { result ≡ beyond count (closing 1 (b ∷ [])) }
{
    if b == b'\r' {
        Close::Lone(count)
    } else {
        Close::Never
    }
}
