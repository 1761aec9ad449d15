//! The tokens of a file.

ghost use Rattle.std.specs.Prelude.{◌≡◌, ◌+◌, ◌<◌, ◌≤◌, length, drop, IfOk, Ok, Err};
ghost use Rattle.std.specs.Result.{IsErrOf};
ghost use Rattle.std.specs.Str.{IsUtf8};
ghost use Rattle.verse_base.specs.declared.refusals.Refusal.{Refusal};
ghost use Rattle.verse_base.specs.declared.refusals.Front.TheVariants as front;
ghost use Rattle.verse_lex.specs.Cut.{start, body, AreTokens, IsRefused, IsBounded, Rise, OneCut};
ghost use Rattle.verse_lex.specs.Cut.{OneRefusal, CutOrRefused};

use crate::bytes::behind;
use crate::cursors::{Cursor, indentation};
use crate::pieces::{Next, piece_at};
use crate::places::{body, first_place, malformed, mark_len, place_at};
use crate::rules::{NOT_UTF8, TEXT_END};
use crate::tokens::Token;
use std::alloc::Global;
use verse_base::limits::MOST_FILE_BYTES;
use verse_base::refusals::{Front, Refusal};

/// The tokens of a file, with rising spans, or the first place where no piece goes on.
pub fn lex(alloc: Global, file: u32, bytes: &[u8]) -> Result<Vec<Token>, Front>
    requires { length bytes.now ≤ MOST_FILE_BYTES }
    ensures tokens { IfOk result (λ tokens. AreTokens file bytes.now tokens.items) }
    ensures spans { IfOk result (λ tokens. Rise 0 tokens.items (length bytes.now)) }
    ensures refused { (refusal : Refusal) → IsErrOf result (Front.Refused refusal) →
        IsRefused file bytes.now refusal }
{
    if let Some(offset) = malformed(bytes) {
        return Err(Front::Refused(Refusal {
            rule: NOT_UTF8,
            place: place_at(file, bytes, offset),
        }));
    }
    cut(alloc, file, bytes)
}

/// The tokens of a file that is UTF-8.
#[tactic(auto, using(crate::proofs::Pushes::reached_start))]
fn cut(alloc: Global, file: u32, bytes: &[u8]) -> Result<Vec<Token>, Front>
    requires len { length bytes.now ≤ MOST_FILE_BYTES }
    requires text { IsUtf8 bytes.now }
    ensures tokens { IfOk result (λ tokens. AreTokens file bytes.now tokens.items) }
    ensures spans { IfOk result (λ tokens. Rise 0 tokens.items (length bytes.now)) }
    ensures refused { (refusal : Refusal) → IsErrOf result (Front.Refused refusal) →
        IsRefused file bytes.now refusal }
{
    let mut tokens = Vec::new(alloc);
    let mut here = start(file, bytes);
    let mut rest = body(bytes);
    'pieces: loop {
        match piece_at(here.in_hole(), rest) {
            Next::End => return Ok(tokens),
            Next::Separator(count) => {
                here = here.past(count, rest);
                rest = behind(rest, count);
            }
            Next::LineEnd(count) => {
                here = here.past_line(count, rest);
                rest = behind(rest, count);
            }
            Next::Token(kind, count) => {
                tokens.push(here.token(kind, count))?;
                here = here.past_token(kind, count, rest);
                rest = behind(rest, count);
            }
            Next::Bad(rule, count) => {
                return Err(Front::Refused(Refusal {
                    rule,
                    place: here.past(count, rest).place,
                }));
            }
            Next::HoleEnd => {
                return Err(Front::Refused(Refusal {
                    rule: TEXT_END,
                    place: here.opening(),
                }));
            }
        }
    }
}

/// A file's first byte behind the byte-order mark.
fn start(file: u32, bytes: &[u8]) -> Cursor
    requires { length bytes.now ≤ MOST_FILE_BYTES }
    ensures here { result ≡ start file bytes.now }
    ensures bounded { IsBounded result (body bytes.now) MOST_FILE_BYTES }
{
    let at = mark_len(bytes);
    Cursor {
        at,
        place: first_place(file),
        hole: None,
        line: Some(indentation(at, body(bytes))),
    }
}
