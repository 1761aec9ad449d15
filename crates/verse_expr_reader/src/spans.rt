//! What the spans of toks hold.

ghost use Rattle.std.specs.Prelude.{◌≡◌, ◌-◌, IfOk, take, drop};
ghost use Rattle.verse_grammar.specs.Toks.{name_at, text_at};

use sqlite_items::Items;
use std::alloc::Global;
use verse_base::refusals::Memory;
use verse_layout::toks::Tok;
use verse_lex::text_bytes;
use verse_lex::tokens::{Token, TokenKind};
use verse_tree::names::{Name, Text};

/// The bytes of a name.
pub fn name_at(alloc: Global, bytes: &[u8], tok: Tok) -> Result<Name, Memory>
    ensures { IfOk result (λ name. name ≡ name_at bytes.now tok) }
{
    Ok(Items::from_slice(alloc, span(bytes, tok.start, tok.end))?)
}

/// The bytes of a text or of a part of one, with escapes replaced.
pub fn text_at(alloc: Global, bytes: &[u8], tok: Tok) -> Result<Text, Memory>
    ensures { IfOk result (λ text. text ≡ text_at bytes.now tok) }
{
    let token = Token {
        kind: TokenKind::Text,
        start: tok.start,
        end: tok.end,
        place: tok.place,
        indent: None,
    };
    Ok(Items::from_vec(text_bytes(alloc, bytes, &token)?))
}

/// The bytes from one offset to another, as far as there are any.
fn span(bytes: &[u8], start: u32, end: u32) -> &[u8]
    ensures { result.now ≡ take (end - start) (drop start bytes.now) }
{
    let first = (start as usize).min(bytes.len());
    let rest = &bytes[first..];
    let count = end.saturating_sub(start) as usize;
    &rest[..count.min(rest.len())]
}
