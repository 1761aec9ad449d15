//! Places in a file, and its byte-order mark.

ghost use Rattle.std.specs.Prelude.{◌≡◌, ◌+◌, ◌<◌, ◌≤◌, ◌^◌, length, MatchOption};
ghost use Rattle.std.specs.Str.{IsUtf8, IsValidUpTo};
ghost use Rattle.verse_lex.specs.Cut.{next_place, after, mark_len, body, first_place, place_at};
ghost use Rattle.verse_lex.specs.Cut.{IsNear};

use crate::bytes::is_at;
use verse_base::limits::MOST_FILE_BYTES;
use verse_base::places::Place;

/// The place behind this byte.
pub fn next_place(place: Place, byte: u8) -> Place
    requires line { place.line + 1 < 2 ^ 32 }
    requires col { place.col + 1 < 2 ^ 32 }
    ensures { result ≡ next_place place byte }
{
    if byte == b'\n' {
        Place {
            file: place.file,
            line: place.line + 1,
            col: 1,
        }
    } else {
        Place {
            file: place.file,
            line: place.line,
            col: place.col + 1,
        }
    }
}

/// The place behind these bytes.
#[tactic(auto, using(crate::proofs::Nearness::next_place_near))]
pub fn after(place: Place, bytes: &[u8]) -> Place
    requires first { 1 ≤ place.col }
    requires line { place.line + length bytes.now < 2 ^ 32 }
    requires col { place.col + length bytes.now < 2 ^ 32 }
    ensures place { result ≡ after place bytes.now }
    ensures near { IsNear place (length bytes.now) result }
{
    let mut here = place;
    'bytes: for byte in bytes {
        here = next_place(here, *byte);
    }
    here
}

/// How long the byte-order mark is, 3 or 0.
pub fn mark_len(bytes: &[u8]) -> usize
    ensures mark { result ≡ mark_len bytes.now }
    ensures within { result ≤ length bytes.now }
{
    if is_at(bytes, 0, 0xEF) && is_at(bytes, 1, 0xBB) && is_at(bytes, 2, 0xBF) {
        3
    } else {
        0
    }
}

/// The file behind its byte-order mark.
pub fn body(bytes: &[u8]) -> &[u8]
    ensures { result.now ≡ body bytes.now }
{
    &bytes[mark_len(bytes)..]
}

/// The place of a file's first byte behind the byte-order mark.
pub fn first_place(file: u32) -> Place
    ensures { result ≡ first_place file }
{
    Place {
        file,
        line: 1,
        col: 1,
    }
}

/// The place of the byte at this offset.
pub fn place_at(file: u32, bytes: &[u8], offset: usize) -> Place
    requires len { length bytes.now ≤ MOST_FILE_BYTES }
    requires within { offset ≤ length bytes.now }
    ensures { result ≡ place_at file bytes.now offset }
{
    let behind_mark = body(bytes);
    let count = offset.saturating_sub(mark_len(bytes));
    after(first_place(file), &behind_mark[..count])
}

/// Where the bytes stop being UTF-8, if they do: the first byte of what is no character.
pub fn malformed(bytes: &[u8]) -> Option<usize>
    ensures { MatchOption result (IsUtf8 bytes.now) (λ n. IsValidUpTo bytes.now n) }
{
    match str::from_utf8(bytes) {
        Ok(_) => None,
        Err(error) => Some(error.valid_up_to()),
    }
}
