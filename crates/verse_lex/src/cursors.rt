//! Where the lexer is in a file, and how it goes on.

ghost use Rattle.std.specs.Prelude.{◌≡◌, ◌+◌, ◌<◌, ◌≤◌, ◌^◌, length, drop};
ghost use Rattle.verse_lex.specs.Cut.{in_hole, past, past_line, past_token, token, opening};
ghost use Rattle.verse_lex.specs.Cut.{hole_after, indentation, IsBounded};

use crate::bytes::{behind, blanks_len};
use crate::places::after;
use crate::tokens::{Token, TokenKind};
use verse_base::limits::MOST_FILE_BYTES;
use verse_base::places::Place;

/// Where the lexer is.
#[derive(Clone, Copy, Debug, PartialEq, Eq)]
pub struct Cursor {
    /// How many bytes of the file are before it, a byte-order mark included.
    pub at: usize,
    pub place: Place,
    /// In a hole: the place of the quote at which the text round the hole begins.
    pub hole: Option<Place>,
    /// Where no token of the line was met yet: the span of the line's indentation.
    pub line: Option<(u32, u32)>,
}

impl Cursor {
    pub fn in_hole(self) -> bool
        ensures { result ≡ in_hole self }
    {
        self.hole.is_some()
    }

    /// So many bytes on.
    pub fn past(self, count: usize, rest: &[u8]) -> Cursor
        requires bounded { IsBounded self rest.now MOST_FILE_BYTES }
        requires within { count ≤ length rest.now }
        ensures here { result ≡ past self count rest.now }
        ensures bounded { IsBounded result (drop count rest.now) MOST_FILE_BYTES }
    {
        Cursor {
            at: self.at + count,
            place: after(self.place, &rest[..count]),
            hole: self.hole,
            line: self.line,
        }
    }

    /// Behind a line end of so many bytes.
    pub fn past_line(self, count: usize, rest: &[u8]) -> Cursor
        requires bounded { IsBounded self rest.now MOST_FILE_BYTES }
        requires within { count ≤ length rest.now }
        ensures here { result ≡ past_line self count rest.now }
        ensures bounded { IsBounded result (drop count rest.now) MOST_FILE_BYTES }
    {
        let there = self.past(count, rest);
        Cursor {
            at: there.at,
            place: there.place,
            hole: there.hole,
            line: Some(indentation(there.at, behind(rest, count))),
        }
    }

    /// Behind a token of so many bytes.
    pub fn past_token(self, kind: TokenKind, count: usize, rest: &[u8]) -> Cursor
        requires bounded { IsBounded self rest.now MOST_FILE_BYTES }
        requires within { count ≤ length rest.now }
        ensures here { result ≡ past_token self kind count rest.now }
        ensures bounded { IsBounded result (drop count rest.now) MOST_FILE_BYTES }
    {
        let there = self.past(count, rest);
        Cursor {
            at: there.at,
            place: there.place,
            hole: hole_after(self.hole, self.place, kind),
            line: None,
        }
    }

    /// The token of so many bytes that begins here.
    pub fn token(self, kind: TokenKind, count: usize) -> Token
        requires { self.at + count < 2 ^ 32 }
        ensures { result ≡ token self kind count }
    {
        Token {
            kind,
            start: self.at as u32,
            end: (self.at + count) as u32,
            place: self.place,
            indent: self.line,
        }
    }

    /// The place of the text round the hole.
    pub fn opening(self) -> Place
        ensures { result ≡ opening self self.hole }
    {
        self.hole.unwrap_or(self.place)
    }
}

/// The hole behind a token, of the text that begins at this place.
pub fn hole_after(hole: Option<Place>, place: Place, kind: TokenKind) -> Option<Place>
    ensures { result ≡ hole_after hole place kind }
{
    match kind {
        TokenKind::TextOpen => Some(place),
        TokenKind::TextClose => None,
        _ => hole,
    }
}

/// The span of the spaces and tabs at the beginning of the line that begins at this offset.
pub fn indentation(offset: usize, rest: &[u8]) -> (u32, u32)
    requires { offset + length rest.now ≤ MOST_FILE_BYTES }
    ensures { result ≡ indentation offset rest.now }
{
    let end = offset + blanks_len(rest);
    (offset as u32, end as u32)
}
