//! What the characters of a text stand for.

ghost use Rattle.std.specs.Prelude.{◌≡◌, IfOk};
ghost use Rattle.verse_lex.specs.Contents.{unescaped, between, token_text};

use crate::bytes::first;
use crate::texts::escape;
use crate::tokens::Token;
use std::alloc::Global;
use verse_base::refusals::Memory;

/// The bytes of a text token that `lex` answers for these bytes: the characters between its quotes
/// and braces, with each escape replaced by the byte that it stands for. Of another token it
/// answers whatever stands between its first and its last byte.
pub fn text_bytes(alloc: Global, bytes: &[u8], token: &Token) -> Result<Vec<u8>, Memory>
    ensures { IfOk result (λ out. out.items ≡ token_text bytes.now token.now) }
{
    unescaped(alloc, between(bytes, token.start, token.end))
}

/// What stands between the first and the last byte of a span.
fn between(bytes: &[u8], start: u32, end: u32) -> &[u8]
    ensures { result.now ≡ between bytes.now start end }
{
    let skipped = (start as usize + 1).min(bytes.len());
    let rest = &bytes[skipped..];
    let count = end.saturating_sub(start).saturating_sub(2) as usize;
    &rest[..count.min(rest.len())]
}

/// The characters with each escape replaced.
fn unescaped(alloc: Global, chars: &[u8]) -> Result<Vec<u8>, Memory>
    ensures { IfOk result (λ out. out.items ≡ unescaped chars.now) }
{
    let mut out = Vec::new(alloc);
    let mut rest = chars;
    'chars: while let Some((b, more)) = first(rest) {
        if b != b'\\' {
            out.push(b)?;
            rest = more;
            continue;
        }
        let Some((c, behind)) = first(more) else {
            return Ok(out);
        };
        out.push(escape(c).unwrap_or(c))?;
        rest = behind;
    }
    Ok(out)
}
