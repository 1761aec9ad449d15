//! One token after the other: what it opens and closes, and what is written for it.

ghost use Rattle.std.specs.Prelude.{◌≡◌, ◌∷◌, List, Option, false, OnOk, IfOk, Err, None, Some};
ghost use Rattle.std.specs.Result.{IsErrOf};
ghost use Rattle.verse_base.specs.declared.refusals.Refusal.{Refusal};
ghost use Rattle.verse_base.specs.declared.refusals.Front.TheVariants as front;
ghost use Rattle.verse_layout.specs.declared.toks.TokKind.TheVariants as t;
ghost use Rattle.verse_layout.specs.Roles.{role_of};
ghost use Rattle.verse_layout.specs.Cells.{Lies, cell_of, spot_of, mark_at, tok_as, passed};
ghost use Rattle.verse_layout.specs.Frames.{Open, Context, Walk, leave, begin_block, indent, lead};
ghost use Rattle.verse_layout.specs.Frames.{follow, close, on_token, before_token, begins_none};
ghost use Rattle.verse_layout.specs.Frames.{line_start, opened_as, closed_as, open_bracket};
ghost use Rattle.verse_layout.specs.Frames.{divided, after_colon, closes, innermost, at_end};
ghost use Rattle.verse_layout.specs.Frames.{no_more, step, write, refuse};
ghost use Rattle.verse_layout.specs.Blocks.{line_sep, close_at};
ghost use Rattle.verse_layout.specs.Written.{Written, tok};
ghost use Rattle.verse_layout.specs.Rests.{rest_of};
ghost use Rattle.verse_layout.specs.States.{stack, context_of};

use crate::frames::{
    Frame, Spot, State, block_in, innermost, is_block, is_brace_close, is_bracket_close, is_front,
    is_proper, is_same, region_at,
};
use crate::roles::{Region, Role, has_lines, in_braces, is_else, is_same_region, role_of};
use crate::rules::{BRACKET, INDENTATION};
use crate::toks::{Tok, TokKind};
use crate::writers::{Writer, refused};
use verse_base::refusals::Front;
use verse_lex::tokens::Token;

/// A mark that no byte spells, where the token begins.
fn mark_at(kind: TokKind, token: &Token) -> Tok
    ensures { result ≡ mark_at kind (spot_of token.now) }
{
    Tok {
        kind,
        start: token.start,
        end: token.start,
        place: token.place,
    }
}

/// The token as a tok of this kind.
fn tok_as(kind: TokKind, token: &Token) -> Tok
    ensures { result ≡ tok_as kind token.now }
{
    Tok {
        kind,
        start: token.start,
        end: token.end,
        place: token.place,
    }
}

/// Writes a mark that no byte spells.
fn put_mark(writer: &mut Writer, kind: TokKind, token: &Token) -> Result<(), Front>
    ensures ok { OnOk result ((x : Walk) →
        rest_of writer.new x ≡ rest_of writer.old
        (write (tok (mark_at kind (spot_of token.now))) x)) }
    ensures refused { (r : Refusal) → IsErrOf result (front.Refused r) →
        (ws : List Written) (stop : Option Refusal) →
        rest_of writer.old (record {
          written = tok (mark_at kind (spot_of token.now)) ∷ ws;
          stop =
              stop;
        }) ≡ Err r }
{
    writer.put(mark_at(kind, token))
}

/// The token, passed on.
fn passed(token: &Token) -> Tok
    ensures { result ≡ passed token.now }
{
    tok_as(TokKind::Plain(token.kind), token)
}

/// Passes the token on.
fn pass(writer: &mut Writer, token: &Token) -> Result<(), Front>
    ensures ok { OnOk result ((x : Walk) →
        rest_of writer.new x ≡ rest_of writer.old (write (tok (passed token.now)) x)) }
    ensures refused { (r : Refusal) → IsErrOf result (front.Refused r) →
        (ws : List Written) (stop : Option Refusal) →
        rest_of writer.old (record { written = tok (passed token.now) ∷ ws; stop = stop }) ≡ Err r }
{
    writer.put(passed(token))
}

/// The tok of an opening bracket.
fn opened_as(region: Region, token: &Token) -> Tok
    ensures { result ≡ opened_as region token.now }
{
    if is_same_region(region, Region::Brace) {
        tok_as(TokKind::Open, token)
    } else {
        passed(token)
    }
}

/// The tok of a closing bracket.
fn closed_as(region: Region, token: &Token) -> Tok
    ensures { result ≡ closed_as region token.now }
{
    if is_same_region(region, Region::Brace) {
        tok_as(TokKind::Close, token)
    } else {
        passed(token)
    }
}

/// Writes an opening bracket.
fn put_opening(writer: &mut Writer, region: Region, token: &Token) -> Result<(), Front>
    ensures ok { OnOk result ((x : Walk) →
        rest_of writer.new x ≡ rest_of writer.old (write (tok (opened_as region token.now)) x)) }
    ensures refused { (r : Refusal) → IsErrOf result (front.Refused r) →
        (ws : List Written) (stop : Option Refusal) →
        rest_of writer.old (record {
          written = tok (opened_as region token.now) ∷ ws;
          stop =
              stop;
        }) ≡ Err r }
{
    writer.put(opened_as(region, token))
}

/// Writes a closing bracket.
fn put_closing(writer: &mut Writer, region: Region, token: &Token) -> Result<(), Front>
    ensures ok { OnOk result ((x : Walk) →
        rest_of writer.new x ≡ rest_of writer.old (write (tok (closed_as region token.now)) x)) }
    ensures refused { (r : Refusal) → IsErrOf result (front.Refused r) →
        (ws : List Written) (stop : Option Refusal) →
        rest_of writer.old (record {
          written = tok (closed_as region token.now) ∷ ws;
          stop =
              stop;
        }) ≡ Err r }
{
    writer.put(closed_as(region, token))
}

/// Closes the blocks that a line of this indentation leaves; a file's first line begins its block.
fn leave<'a>(
    writer: &mut Writer,
    frames: &mut Vec<Frame<'a>>,
    token: &Token,
    text: &'a [u8],
) -> Result<(), Front>
    ensures ok { OnOk result ((go : List Open → Walk) →
        rest_of writer.new (go (stack frames.new.items)) ≡
        rest_of writer.old (leave (stack frames.old.items) token.now text.now go)) }
    ensures refused { (r : Refusal) → IsErrOf result (front.Refused r) → (go : List Open → Walk) →
        rest_of writer.old (leave (stack frames.old.items) token.now text.now go) ≡ Err r }
{
    'leaving: loop {
        let Some(frame) = frames.pop() else {
            frames.push(Frame {
                region: Region::File,
                text,
                place: token.place,
            })?;
            return Ok(());
        };
        if is_same_region(frame.region, Region::Brace) || is_same(frame.text, text) {
            frames.push(frame)?;
            return Ok(());
        }
        if !is_block(frame.region) || is_front(frame.text, text) {
            return Err(refused(INDENTATION, token.place));
        }
        put_mark(writer, TokKind::Close, token)?;
    }
}

/// Wants what separates a line from the one before.
fn want_line(writer: &mut Writer, token: &Token)
    ensures { (x : Walk) → rest_of writer.new x ≡
        rest_of writer.old (write (line_sep token.now) x) }
{
    if is_else(token.kind) {
        writer.want_none();
    } else {
        writer.want(mark_at(TokKind::Sep, token));
    }
}

/// Writes the Open of an indented block, and what separates its first line from it.
fn put_open(writer: &mut Writer, token: &Token) -> Result<(), Front>
    ensures ok { OnOk result ((x : Walk) →
        rest_of writer.new x ≡ rest_of writer.old
        (write (tok (mark_at t.Open (spot_of token.now))) (write (line_sep token.now) x))) }
    ensures refused { (r : Refusal) → IsErrOf result (front.Refused r) →
        (ws : List Written) (stop : Option Refusal) →
        rest_of writer.old (record {
          written = tok (mark_at t.Open (spot_of token.now)) ∷ ws;
          stop =
              stop;
        }) ≡ Err r }
{
    put_mark(writer, TokKind::Open, token)?;
    want_line(writer, token);
    Ok(())
}

/// Begins a block of this indentation.
fn begin_block<'a>(
    writer: &mut Writer,
    state: &mut State<'a>,
    token: &Token,
    text: &'a [u8],
) -> Result<(), Front>
    ensures ok { OnOk result ((go : Context → Walk) →
        rest_of writer.new (go (context_of state.new)) ≡
        rest_of writer.old (begin_block (context_of state.old) token.now text.now go)) }
    ensures refused { (r : Refusal) → IsErrOf result (front.Refused r) → (go : Context → Walk) →
        rest_of writer.old (begin_block (context_of state.old) token.now text.now go) ≡ Err r }
{
    let region = block_in(region_at(state.frames.as_slice()));
    put_open(writer, token)?;
    state.frames.push(Frame {
        region,
        text,
        place: token.place,
    })?;
    state.is_opened = false;
    state.line = text;
    Ok(())
}

/// Begins the block behind an opener, if the line is indented behind the opener's.
fn indent<'a>(
    writer: &mut Writer,
    state: &mut State<'a>,
    token: &Token,
    text: &'a [u8],
) -> Result<(), Front>
    ensures ok { OnOk result ((go : Context → Walk) →
        rest_of writer.new (go (context_of state.new)) ≡
        rest_of writer.old (indent (context_of state.old) token.now text.now go)) }
    ensures refused { (r : Refusal) → IsErrOf result (front.Refused r) → (go : Context → Walk) →
        rest_of writer.old (indent (context_of state.old) token.now text.now go) ≡ Err r }
{
    if !is_proper(state.line, text) {
        return Err(refused(INDENTATION, token.place));
    }
    if is_bracket_close(role_of(token.kind)) {
        return Err(refused(BRACKET, token.place));
    }
    begin_block(writer, state, token, text)
}

/// Writes what stands before a token that begins a line.
fn lead<'a>(
    writer: &mut Writer,
    state: &mut State<'a>,
    token: &Token,
    text: &'a [u8],
) -> Result<(), Front>
    ensures ok { OnOk result ((go : Context → Walk) →
        rest_of writer.new (go (context_of state.new)) ≡
        rest_of writer.old (lead (context_of state.old) token.now text.now go)) }
    ensures refused { (r : Refusal) → IsErrOf result (front.Refused r) → (go : Context → Walk) →
        rest_of writer.old (lead (context_of state.old) token.now text.now go) ≡ Err r }
{
    if state.is_opened {
        return indent(writer, state, token, text);
    }
    leave(writer, &mut state.frames, token, text)?;
    want_line(writer, token);
    state.line = text;
    Ok(())
}

/// Refuses a token behind an opener that begins no line.
fn follow(state: &State, token: &Token) -> Result<(), Front>
    ensures ok { OnOk result ((go : Context → Walk) → follow (context_of state.now) token.now go ≡
        go (context_of state.now)) }
    ensures refused { (r : Refusal) → IsErrOf result (front.Refused r) → (go : Context → Walk) →
        follow (context_of state.now) token.now go ≡ refuse r.rule r.place }
{
    if !state.is_opened && !state.frames.is_empty() {
        return Ok(());
    }
    let is_wrong = is_brace_close(role_of(token.kind))
        && !in_braces(region_at(state.frames.as_slice()));
    Err(refused(if is_wrong { BRACKET } else { INDENTATION }, token.place))
}

/// Closes the innermost bracket, and answers the indentation of the last line that began round it.
fn close<'a>(
    writer: &mut Writer,
    frames: &mut Vec<Frame<'a>>,
    region: Region,
    token: &Token,
) -> Result<&'a [u8], Front>
    ensures ok { IfOk result (λ text. (go : Context → Walk) →
        rest_of writer.new (go (record
        { opened = false; line = text.now; frames = stack frames.new.items })) ≡
        rest_of writer.old (close region (stack frames.old.items) token.now go)) }
    ensures refused { (r : Refusal) → IsErrOf result (front.Refused r) → (go : Context → Walk) →
        rest_of writer.old (close region (stack frames.old.items) token.now go) ≡ Err r }
{
    'closing: loop {
        let Some(frame) = frames.pop() else {
            return Err(refused(BRACKET, token.place));
        };
        if is_same_region(frame.region, region) {
            put_closing(writer, region, token)?;
            return Ok(frame.text);
        }
        if !is_same_region(region, Region::Brace)
            || !is_same_region(frame.region, Region::BraceBlock)
        {
            return Err(refused(BRACKET, token.place));
        }
        put_mark(writer, TokKind::Close, token)?;
    }
}

/// Whether it is the role of a token that begins no line, a `}`, or line ends mean nothing there.
fn begins_none(state: &State, token: &Token) -> bool
    ensures { result ≡ begins_none (stack state.now.frames.items) token.now }
{
    !has_lines(region_at(state.frames.as_slice())) || is_brace_close(role_of(token.kind))
}

/// Writes what stands before a token.
fn before_token<'a>(
    writer: &mut Writer,
    state: &mut State<'a>,
    bytes: &'a [u8],
    token: &Token,
) -> Result<(), Front>
    requires { Lies bytes.now token.now }
    ensures ok { OnOk result ((go : Context → Walk) → rest_of writer.new (go (context_of state.new))
        ≡ rest_of writer.old (before_token
        (line_start (stack state.old.frames.items) (cell_of bytes.now token.now))
        (context_of state.old) token.now go)) }
    ensures refused { (r : Refusal) → IsErrOf result (front.Refused r) → (go : Context → Walk) →
        rest_of writer.old (before_token
        (line_start (stack state.old.frames.items) (cell_of bytes.now token.now))
        (context_of state.old) token.now go) ≡ Err r }
{
    if begins_none(state, token) {
        return follow(state, token);
    }
    match token.indent {
        Some((from, to)) => lead(writer, state, token, &bytes[from as usize..to as usize]),
        None => follow(state, token),
    }
}

/// Opens a bracket.
fn open_bracket<'a>(
    writer: &mut Writer,
    state: &mut State<'a>,
    region: Region,
    token: &Token,
) -> Result<(), Front>
    ensures ok { OnOk result ((go : Context → Walk) →
        rest_of writer.new (go (context_of state.new)) ≡
        rest_of writer.old (open_bracket region (context_of state.old) token.now go)) }
    ensures refused { (r : Refusal) → IsErrOf result (front.Refused r) → (go : Context → Walk) →
        rest_of writer.old (open_bracket region (context_of state.old) token.now go) ≡ Err r }
{
    put_opening(writer, region, token)?;
    state.frames.push(Frame {
        region,
        text: state.line,
        place: token.place,
    })?;
    state.is_opened = false;
    Ok(())
}

/// Closes a bracket.
fn close_bracket<'a>(
    writer: &mut Writer,
    state: &mut State<'a>,
    region: Region,
    token: &Token,
) -> Result<(), Front>
    ensures ok { OnOk result ((go : Context → Walk) →
        rest_of writer.new (go (context_of state.new)) ≡
        rest_of writer.old (close region (context_of state.old).frames token.now go)) }
    ensures refused { (r : Refusal) → IsErrOf result (front.Refused r) → (go : Context → Walk) →
        rest_of writer.old (close region (context_of state.old).frames token.now go) ≡ Err r }
{
    let line = close(writer, &mut state.frames, region, token)?;
    state.is_opened = false;
    state.line = line;
    Ok(())
}

/// Wants a Sep for the token if it divides, and passes it on otherwise.
fn divide(writer: &mut Writer, divides: bool, token: &Token) -> Result<(), Front>
    ensures ok { OnOk result ((x : Walk) →
        rest_of writer.new x ≡ rest_of writer.old (write (divided divides token.now) x)) }
    ensures refused { (r : Refusal) → IsErrOf result (front.Refused r) →
        (ws : List Written) (stop : Option Refusal) →
        rest_of writer.old (record { written = divided divides token.now ∷ ws; stop = stop }) ≡
        Err r }
{
    if divides {
        writer.want(tok_as(TokKind::Sep, token));
        return Ok(());
    }
    pass(writer, token)
}

/// Passes a `:` on, unless it opens a block.
fn colon(writer: &mut Writer, opens: bool, token: &Token) -> Result<(), Front>
    ensures ok { OnOk result ((x : Walk) →
        rest_of writer.new x ≡ rest_of writer.old (after_colon opens token.now x)) }
    ensures refused { (r : Refusal) → IsErrOf result (front.Refused r) → (x : Walk) →
        rest_of writer.old (after_colon opens token.now x) ≡ Err r }
{
    if opens {
        return Ok(());
    }
    pass(writer, token)
}

/// The token itself, whose line it ends or not.
fn on_token<'a>(
    writer: &mut Writer,
    state: &mut State<'a>,
    token: &Token,
    ends: bool,
) -> Result<(), Front>
    ensures ok { OnOk result ((go : Context → Walk) →
        rest_of writer.new (go (context_of state.new)) ≡
        rest_of writer.old (on_token ends (context_of state.old) token.now go)) }
    ensures refused { (r : Refusal) → IsErrOf result (front.Refused r) → (go : Context → Walk) →
        rest_of writer.old (on_token ends (context_of state.old) token.now go) ≡ Err r }
{
    let region = region_at(state.frames.as_slice());
    let opens = has_lines(region) && ends;
    match role_of(token.kind) {
        Role::Opens(inner) => open_bracket(writer, state, inner, token),
        Role::Closes(inner) => close_bracket(writer, state, inner, token),
        Role::Semicolon => {
            divide(writer, has_lines(region), token)?;
            state.is_opened = false;
            Ok(())
        }
        Role::Comma => {
            divide(writer, in_braces(region), token)?;
            state.is_opened = false;
            Ok(())
        }
        Role::Colon => {
            colon(writer, opens, token)?;
            state.is_opened = opens;
            Ok(())
        }
        Role::Equals => {
            pass(writer, token)?;
            state.is_opened = opens;
            Ok(())
        }
        Role::Other => {
            pass(writer, token)?;
            state.is_opened = false;
            Ok(())
        }
    }
}

/// Writes the end of an indented block at the file's end.
fn put_end(writer: &mut Writer, end: Spot) -> Result<(), Front>
    ensures ok { OnOk result ((x : Walk) →
        rest_of writer.new x ≡ rest_of writer.old (write (close_at end) x)) }
    ensures refused { (r : Refusal) → IsErrOf result (front.Refused r) →
        (ws : List Written) (stop : Option Refusal) →
        rest_of writer.old (record { written = close_at end ∷ ws; stop = stop }) ≡ Err r }
{
    writer.put(Tok {
        kind: TokKind::Close,
        start: end.at,
        end: end.at,
        place: end.place,
    })
}

/// Closes the blocks that are open at the file's end.
fn close_all(writer: &mut Writer, frames: &mut Vec<Frame>, end: Spot) -> Result<(), Front>
    ensures ok { OnOk result (rest_of writer.new no_more ≡
        rest_of writer.old (closes end (stack frames.old.items))) }
    ensures refused { (r : Refusal) → IsErrOf result (front.Refused r) →
        rest_of writer.old (closes end (stack frames.old.items)) ≡ Err r }
{
    'closing: while let Some(frame) = frames.pop() {
        if !is_block(frame.region) {
            return Ok(());
        }
        put_end(writer, end)?;
    }
    Ok(())
}

/// Refuses a file that ends in a bracket or behind an opener, and closes its blocks otherwise.
pub fn at_end(writer: &mut Writer, state: &mut State, end: Spot) -> Result<(), Front>
    ensures ok { OnOk result (rest_of writer.new no_more ≡
        rest_of writer.old (at_end (innermost (stack state.old.frames.items)) end
        (context_of state.old))) }
    ensures refused { (r : Refusal) → IsErrOf result (front.Refused r) →
        rest_of writer.old (at_end (innermost (stack state.old.frames.items)) end
        (context_of state.old)) ≡ Err r }
{
    if let Some(place) = innermost(state.frames.as_slice()) {
        return Err(refused(BRACKET, place));
    }
    if state.is_opened {
        return Err(refused(INDENTATION, end.place));
    }
    close_all(writer, &mut state.frames, end)
}

/// One token, with what stands before it.
pub fn step<'a>(
    writer: &mut Writer,
    state: &mut State<'a>,
    bytes: &'a [u8],
    token: &Token,
    ends: bool,
) -> Result<(), Front>
    requires { Lies bytes.now token.now }
    ensures ok { OnOk result ((go : Context → Walk) → rest_of writer.new (go (context_of state.new))
        ≡ rest_of writer.old (step (context_of state.old) (cell_of bytes.now token.now) ends go)) }
    ensures refused { (r : Refusal) → IsErrOf result (front.Refused r) → (go : Context → Walk) →
        rest_of writer.old (step (context_of state.old) (cell_of bytes.now token.now) ends go) ≡
        Err r }
{
    before_token(writer, state, bytes, token)?;
    on_token(writer, state, token, ends)
}
