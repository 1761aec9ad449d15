//! Primary forms: which there are, names, instances and texts with holes.

ghost use Rattle.std.specs.Prelude.{◌≡◌, ◌≢◌, ◌<◌, ◌≤◌, ◌∷◌, ℕ, Some, IfOk, length, map};
ghost use Rattle.std.specs.Result.{IsErrOf};
ghost use Rattle.verse_tree.specs.View.{tree_of, given_of, hole_of};
ghost use Rattle.verse_grammar.specs.Toks.{ahead, text_at};
ghost use Rattle.verse_grammar.specs.Exprs.{Reads, GivensUntil, AreHoles};
ghost use Rattle.verse_grammar.specs.Starts.{primary_start, kind_of};
ghost use Rattle.verse_grammar.specs.Symbols.{phrase, given, givens_until};
ghost use Rattle.verse_grammar.specs.Reading.{EatsRule, SticksRule};
ghost use Rattle.verse_grammar.specs.declared.phrases.Phrase.{Phrase};
ghost use Rattle.verse_grammar.specs.declared.starts.PrimaryStart.{PrimaryStart};
ghost use Rattle.verse_grammar.specs.declared.starts.Fixed.{Fixed};
ghost use Rattle.verse_expr_primary.specs.Parts.{IsGiven};
ghost use Rattle.verse_expr_reader.specs.Nests.{Nests};
ghost use Rattle.verse_expr_reader.specs.declared.steps.ReadFault.TheVariants as read_fault;

use crate::braces::{mapping, spawn};
use crate::brackets::{event, round, sleep};
use std::alloc::Global;
use verse_expr_keywords::forms::{cases, for_form};
use verse_expr_keywords::leaves::{Leaf, leaf_form};
use verse_expr_keywords::words::{BodyWord, ListWord, body_form, list_form};
use verse_expr_reader::nesting::Reader;
use verse_expr_reader::spans::{name_at, text_at};
use verse_expr_reader::steps::{ReadFault, expect, next, take};
use verse_grammar::phrases::Phrase;
use verse_grammar::starts::{Fixed, PrimaryStart, primary_start};
use verse_layout::toks::Tok;
use verse_tree::names::Name;
use verse_tree_nodes::lists::{Givens, Holes};
use verse_tree_nodes::literals;
use verse_tree_nodes::trees::Tree;

/// A primary form.
#[tactic(auto, using(crate::proofs::RuleSets::of_primary))]
pub fn primary<'t, F: Fn(Global, &[u8], Phrase, &[Tok]) -> Result<(Tree, usize), ReadFault>>(
    reader: &Reader<'_, F>,
    toks: &'t [Tok],
) -> Result<(Tree, &'t [Tok]), ReadFault>
    requires nests { Nests reader.now.bytes.now reader.now.most (F.pre reader.now.nested)
        (F.post reader.now.nested) }
    requires within { length toks.now ≤ reader.now.most }
    ensures spelled { IfOk result
        (λ r. Reads reader.now.bytes.now Phrase.Primary toks.now (tree_of r.0) r.1.now) }
    ensures eats { IfOk result (λ r. EatsRule (phrase Phrase.Primary) toks.now r.1.now) }
    ensures sticks { (left : ℕ) → IsErrOf result (read_fault.Stuck left) →
        SticksRule (phrase Phrase.Primary) toks.now left }
    ensures shorter { IfOk result (λ r. length r.1.now < length toks.now) }
{
    match next(toks) {
        Some((tok, rest)) => match primary_start(tok.kind) {
            Some(start) => primary_from(reader, start, tok, rest),
            None => Err(ReadFault::Stuck(toks.len())),
        },
        None => Err(ReadFault::Stuck(0)),
    }
}

/// The primary form that begins with this tok.
fn primary_from<'t, F: Fn(Global, &[u8], Phrase, &[Tok]) -> Result<(Tree, usize), ReadFault>>(
    reader: &Reader<'_, F>,
    start: PrimaryStart,
    tok: Tok,
    toks: &'t [Tok],
) -> Result<(Tree, &'t [Tok]), ReadFault>
    requires nests { Nests reader.now.bytes.now reader.now.most (F.pre reader.now.nested)
        (F.post reader.now.nested) }
    requires fewer { length toks.now < reader.now.most }
    requires start { primary_start tok.kind ≡ Some start }
    ensures spelled { IfOk result (λ r. Reads reader.now.bytes.now Phrase.Primary (tok ∷ toks.now)
        (tree_of r.0) r.1.now) }
    ensures eats { IfOk result (λ r. EatsRule (phrase Phrase.Primary) (tok ∷ toks.now) r.1.now) }
    ensures sticks { (left : ℕ) → IsErrOf result (read_fault.Stuck left) →
        SticksRule (phrase Phrase.Primary) (tok ∷ toks.now) left }
    ensures shorter { IfOk result (λ r. length r.1.now ≤ length toks.now) }
{
    match start {
        PrimaryStart::Int(value) => leaf_form(reader, Leaf::Int(value), tok, toks),
        PrimaryStart::Char(value) => leaf_form(reader, Leaf::Char(value), tok, toks),
        PrimaryStart::Text => leaf_form(reader, Leaf::Text, tok, toks),
        PrimaryStart::TextOpen => text_with_holes(reader, tok, toks),
        PrimaryStart::True => leaf_form(reader, Leaf::True, tok, toks),
        PrimaryStart::False => leaf_form(reader, Leaf::False, tok, toks),
        PrimaryStart::This => leaf_form(reader, Leaf::This, tok, toks),
        PrimaryStart::Name => name_from(reader, tok, toks),
        PrimaryStart::Round => round(reader, tok, toks),
        PrimaryStart::Array => list_form(reader, ListWord::Array, tok, toks),
        PrimaryStart::Map => mapping(reader, tok, toks),
        PrimaryStart::Option => list_form(reader, ListWord::Option, tok, toks),
        PrimaryStart::Logic => list_form(reader, ListWord::Logic, tok, toks),
        PrimaryStart::Event => event(reader, tok, toks),
        PrimaryStart::For => for_form(reader, tok, toks),
        PrimaryStart::Loop => body_form(reader, BodyWord::Loop, tok, toks),
        PrimaryStart::Block => body_form(reader, BodyWord::Block, tok, toks),
        PrimaryStart::Branch => body_form(reader, BodyWord::Branch, tok, toks),
        PrimaryStart::Sync => list_form(reader, ListWord::Sync, tok, toks),
        PrimaryStart::Race => list_form(reader, ListWord::Race, tok, toks),
        PrimaryStart::Rush => list_form(reader, ListWord::Rush, tok, toks),
        PrimaryStart::Case => cases(reader, tok, toks),
        PrimaryStart::Spawn => spawn(reader, tok, toks),
        PrimaryStart::Sleep => sleep(reader, tok, toks),
    }
}

/// A name, or an instance of a class.
#[tactic(auto, using(crate::proofs::RuleSets::of_name_from))]
fn name_from<'t, F: Fn(Global, &[u8], Phrase, &[Tok]) -> Result<(Tree, usize), ReadFault>>(
    reader: &Reader<'_, F>,
    tok: Tok,
    toks: &'t [Tok],
) -> Result<(Tree, &'t [Tok]), ReadFault>
    requires nests { Nests reader.now.bytes.now reader.now.most (F.pre reader.now.nested)
        (F.post reader.now.nested) }
    requires fewer { length toks.now < reader.now.most }
    requires start { primary_start tok.kind ≡ Some PrimaryStart.Name }
    ensures spelled { IfOk result (λ r. Reads reader.now.bytes.now Phrase.Primary (tok ∷ toks.now)
        (tree_of r.0) r.1.now) }
    ensures eats { IfOk result (λ r. EatsRule (phrase Phrase.Primary) (tok ∷ toks.now) r.1.now) }
    ensures sticks { (left : ℕ) → IsErrOf result (read_fault.Stuck left) →
        SticksRule (phrase Phrase.Primary) (tok ∷ toks.now) left }
    ensures shorter { IfOk result (λ r. length r.1.now ≤ length toks.now) }
{
    let name = name_at(reader.alloc, reader.bytes, tok)?;
    match take(toks, Fixed::Open) {
        Some((_, behind)) => {
            let (parts, rest) = givens_until(reader, behind)?;
            Ok((
                literals::instance(reader.alloc, tok.place, name, parts)?,
                rest,
            ))
        }
        None => Ok((literals::name_alone(reader.alloc, tok.place, name)?, toks)),
    }
}

/// The fields that an instance is given, up to Close.
#[tactic(auto, using(crate::proofs::RuleSets::of_givens_until))]
fn givens_until<'t, F: Fn(Global, &[u8], Phrase, &[Tok]) -> Result<(Tree, usize), ReadFault>>(
    reader: &Reader<'_, F>,
    toks: &'t [Tok],
) -> Result<(Givens, &'t [Tok]), ReadFault>
    requires nests { Nests reader.now.bytes.now reader.now.most (F.pre reader.now.nested)
        (F.post reader.now.nested) }
    requires fewer { length toks.now < reader.now.most }
    ensures spelled { IfOk result
        (λ r. GivensUntil reader.now.bytes.now toks.now (map given_of r.0) r.1.now) }
    ensures eats { IfOk result (λ r. EatsRule givens_until toks.now r.1.now) }
    ensures sticks { (left : ℕ) → IsErrOf result (read_fault.Stuck left) →
        SticksRule givens_until toks.now left }
    ensures shorter { IfOk result (λ r. length r.1.now < length toks.now) }
{
    match take(toks, Fixed::Close) {
        Some((_, rest)) => Ok((Givens::new(reader.alloc), rest)),
        None => givens(reader, toks),
    }
}

/// One field or more, up to Close.
#[tactic(auto, using(crate::proofs::RuleSets::of_givens))]
fn givens<'t, F: Fn(Global, &[u8], Phrase, &[Tok]) -> Result<(Tree, usize), ReadFault>>(
    reader: &Reader<'_, F>,
    toks: &'t [Tok],
) -> Result<(Givens, &'t [Tok]), ReadFault>
    requires nests { Nests reader.now.bytes.now reader.now.most (F.pre reader.now.nested)
        (F.post reader.now.nested) }
    requires fewer { length toks.now < reader.now.most }
    requires some { ahead toks.now ≢ Some (kind_of Fixed.Close) }
    ensures spelled { IfOk result
        (λ r. GivensUntil reader.now.bytes.now toks.now (map given_of r.0) r.1.now) }
    ensures eats { IfOk result (λ r. EatsRule givens_until toks.now r.1.now) }
    ensures sticks { (left : ℕ) → IsErrOf result (read_fault.Stuck left) →
        SticksRule givens_until toks.now left }
    ensures shorter { IfOk result (λ r. length r.1.now < length toks.now) }
{
    let ((name, value), after) = given(reader, toks)?;
    let mut parts = Givens::new(reader.alloc);
    parts.push(name, value)?;
    let mut rest = after;
    'more: while let Some((_, behind)) = take(rest, Fixed::Sep) {
        let ((name, value), left) = given(reader, behind)?;
        parts.push(name, value)?;
        rest = left;
    }
    match take(rest, Fixed::Close) {
        Some((_, rest)) => Ok((parts, rest)),
        None => Err(ReadFault::Stuck(rest.len())),
    }
}

/// `F := E`
#[tactic(auto, using(crate::proofs::RuleSets::of_given))]
fn given<'t, F: Fn(Global, &[u8], Phrase, &[Tok]) -> Result<(Tree, usize), ReadFault>>(
    reader: &Reader<'_, F>,
    toks: &'t [Tok],
) -> Result<((Name, Tree), &'t [Tok]), ReadFault>
    requires nests { Nests reader.now.bytes.now reader.now.most (F.pre reader.now.nested)
        (F.post reader.now.nested) }
    requires fewer { length toks.now < reader.now.most }
    ensures spelled { IfOk result
        (λ r. IsGiven reader.now.bytes.now toks.now (r.0.0, tree_of r.0.1) r.1.now) }
    ensures eats { IfOk result (λ r. EatsRule given toks.now r.1.now) }
    ensures sticks { (left : ℕ) → IsErrOf result (read_fault.Stuck left) →
        SticksRule given toks.now left }
    ensures shorter { IfOk result (λ r. length r.1.now < length toks.now) }
{
    let (field, behind) = expect(toks, Fixed::Name)?;
    let (_, behind) = expect(behind, Fixed::Define)?;
    let (value, rest) = reader.inner(Phrase::Expr, behind)?;
    let name = name_at(reader.alloc, reader.bytes, field)?;
    Ok(((name, value), rest))
}

/// A text with holes.
#[tactic(auto, using(verse_grammar::specs::Exprs::text_holes))]
fn text_with_holes<'t, F: Fn(Global, &[u8], Phrase, &[Tok]) -> Result<(Tree, usize), ReadFault>>(
    reader: &Reader<'_, F>,
    tok: Tok,
    toks: &'t [Tok],
) -> Result<(Tree, &'t [Tok]), ReadFault>
    requires nests { Nests reader.now.bytes.now reader.now.most (F.pre reader.now.nested)
        (F.post reader.now.nested) }
    requires fewer { length toks.now < reader.now.most }
    requires start { primary_start tok.kind ≡ Some PrimaryStart.TextOpen }
    ensures spelled { IfOk result (λ r. Reads reader.now.bytes.now Phrase.Primary (tok ∷ toks.now)
        (tree_of r.0) r.1.now) }
    ensures eats { IfOk result (λ r. EatsRule (phrase Phrase.Primary) (tok ∷ toks.now) r.1.now) }
    ensures sticks { (left : ℕ) → IsErrOf result (read_fault.Stuck left) →
        SticksRule (phrase Phrase.Primary) (tok ∷ toks.now) left }
    ensures shorter { IfOk result (λ r. length r.1.now ≤ length toks.now) }
{
    let bytes = text_at(reader.alloc, reader.bytes, tok)?;
    let (parts, rest) = holes(reader, tok, toks)?;
    Ok((
        literals::text_holes(reader.alloc, tok.place, bytes, parts)?,
        rest,
    ))
}

/// The holes of a text, each with the text behind it.
#[tactic(auto, using(crate::proofs::RuleSets::of_holes))]
fn holes<'t, F: Fn(Global, &[u8], Phrase, &[Tok]) -> Result<(Tree, usize), ReadFault>>(
    reader: &Reader<'_, F>,
    tok: Tok,
    toks: &'t [Tok],
) -> Result<(Holes, &'t [Tok]), ReadFault>
    requires nests { Nests reader.now.bytes.now reader.now.most (F.pre reader.now.nested)
        (F.post reader.now.nested) }
    requires fewer { length toks.now < reader.now.most }
    requires start { primary_start tok.kind ≡ Some PrimaryStart.TextOpen }
    ensures spelled { IfOk result
        (λ r. AreHoles reader.now.bytes.now toks.now (map hole_of r.0) r.1.now) }
    ensures eats { IfOk result (λ r. EatsRule (phrase Phrase.Primary) (tok ∷ toks.now) r.1.now) }
    ensures sticks { (left : ℕ) → IsErrOf result (read_fault.Stuck left) →
        SticksRule (phrase Phrase.Primary) (tok ∷ toks.now) left }
    ensures shorter { IfOk result (λ r. length r.1.now ≤ length toks.now) }
{
    let (first, after) = reader.inner(Phrase::Expr, toks)?;
    let mut parts = Holes::new(reader.alloc);
    let mut value = first;
    let mut rest = after;
    'more: while let Some((part, behind)) = take(rest, Fixed::TextMid) {
        parts.push(value, text_at(reader.alloc, reader.bytes, part)?)?;
        let (expr, left) = reader.inner(Phrase::Expr, behind)?;
        value = expr;
        rest = left;
    }
    match take(rest, Fixed::TextClose) {
        Some((part, rest)) => {
            parts.push(value, text_at(reader.alloc, reader.bytes, part)?)?;
            Ok((parts, rest))
        }
        None => Err(ReadFault::Stuck(rest.len())),
    }
}
