//! Layout: the toks of a file's tokens.

ghost use Rattle.std.specs.Prelude.{◌≡◌, ◌≤◌, ◌*◌, List, ℕ, length, IfOk, Ok, Err};
ghost use Rattle.std.specs.List.{All};
ghost use Rattle.std.specs.Result.{IsErrOf};
ghost use Rattle.verse_base.specs.declared.refusals.Refusal.{Refusal};
ghost use Rattle.verse_base.specs.declared.refusals.Front.TheVariants as front;
ghost use Rattle.verse_layout.specs.Cells.{Lies, cells_of, ends_line};
ghost use Rattle.verse_layout.specs.declared.toks.Tok.{Tok};
ghost use Rattle.verse_layout.specs.Frames.{walk_answer};
ghost use Rattle.verse_layout.specs.Layouts.{end_of, file_of, IsLayout};
ghost use Rattle.verse_layout.specs.Refusals.{IsRefused};

use crate::frames::{Spot, State};
use crate::steps::{at_end, step};
use crate::toks::Tok;
use crate::writers::Writer;
use std::alloc::Global;
use verse_base::limits::MOST_FILE_BYTES;
use verse_base::refusals::Front;
use verse_lex::place_at;
use verse_lex::tokens::Token;

/// The number of the tokens' file.
fn file_of(tokens: &[Token]) -> u32
    ensures { result ≡ file_of tokens.now }
{
    match tokens {
        [first, ..] => first.place.file,
        [] => 0,
    }
}

/// The file's end.
fn end_of(bytes: &[u8], tokens: &[Token]) -> Spot
    requires { length bytes.now ≤ MOST_FILE_BYTES }
    ensures { result ≡ end_of bytes.now tokens.now }
{
    Spot {
        at: bytes.len() as u32,
        place: place_at(file_of(tokens), bytes, bytes.len()),
    }
}

/// Whether the token before these is the last of its line.
fn ends_line(tokens: &[Token]) -> bool
    ensures { (bytes : List ℕ) → result ≡ ends_line (cells_of bytes tokens.now) }
{
    match tokens {
        [first, ..] => first.indent.is_some(),
        [] => true,
    }
}

/// Walks over the tokens with the frames that are open.
fn walk(alloc: Global, bytes: &[u8], tokens: &[Token]) -> Result<Vec<Tok>, Front>
    requires size { length bytes.now ≤ MOST_FILE_BYTES }
    requires lines { All (Lies bytes.now) tokens.now }
    ensures toks { IfOk result (λ toks. walk_answer (end_of bytes.now tokens.now)
        (cells_of bytes.now tokens.now) ≡ Ok toks.items) }
    ensures refused { (r : Refusal) → IsErrOf result (front.Refused r) →
        walk_answer (end_of bytes.now tokens.now) (cells_of bytes.now tokens.now) ≡ Err r }
{
    let end = end_of(bytes, tokens);
    let mut writer = Writer::start(alloc);
    let mut state = State {
        is_opened: false,
        line: &[],
        frames: Vec::new(alloc),
    };
    let mut rest = tokens;
    'tokens: while let Some((token, behind)) = rest.split_first() {
        step(&mut writer, &mut state, bytes, token, ends_line(behind))?;
        rest = behind;
    }
    at_end(&mut writer, &mut state, end)?;
    Ok(writer.output.toks)
}

/// The toks of a file's tokens: the file's lines as a block, written out with Open, Sep and Close.
///
/// `bytes` is the file, of at most `MOST_FILE_BYTES` bytes, and `tokens` are its tokens. Refusals:
/// E020 at a token that no line may have there, or at the end of a file whose last token is an
/// opener; E021 at a closing bracket that closes none or, at the file's end, at the innermost
/// bracket that is open; E022 at the first tok that brings the nesting load above `MOST_LOAD`. At
/// one token E020 comes before E021. The list has at most four toks for each token.
pub fn layout(alloc: Global, bytes: &[u8], tokens: &[Token]) -> Result<Vec<Tok>, Front>
    requires size { length bytes.now ≤ MOST_FILE_BYTES }
    requires lines { All (Lies bytes.now) tokens.now }
    ensures toks { IfOk result (λ toks. IsLayout bytes.now tokens.now toks.items) }
    ensures few { IfOk result (λ toks. length toks.items ≤ 4 * length tokens.now) }
    ensures exact { (r : Refusal) → IsErrOf result (front.Refused r) →
        IsRefused bytes.now tokens.now r }
    ensures none { (r : Refusal) → IsErrOf result (front.Refused r) → (ks : List Tok) →
        IsLayout bytes.now tokens.now ks → ⊥ }
{
    walk(alloc, bytes, tokens)
}
