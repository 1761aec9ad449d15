//! Types.

ghost use Rattle.std.specs.Prelude.{◌≡◌, ◌≢◌, ◌<◌, ◌≤◌, ◌∷◌, ℕ, Some, IfOk, length, map};
ghost use Rattle.std.specs.Result.{IsErrOf};
ghost use Rattle.verse_tree.specs.View.{written_of};
ghost use Rattle.verse_grammar.specs.Toks.{ahead};
ghost use Rattle.verse_grammar.specs.Starts.{kind_of, type_start};
ghost use Rattle.verse_grammar.specs.Types.{IsType, AreTypes};
ghost use Rattle.verse_grammar.specs.Symbols.{a_type, types};
ghost use Rattle.verse_grammar.specs.Reading.{EatsRule, SticksRule};
ghost use Rattle.verse_grammar.specs.declared.starts.TypeStart.{TypeStart};
ghost use Rattle.verse_grammar.specs.declared.starts.Fixed.{Fixed};
ghost use Rattle.verse_expr_reader.specs.declared.steps.ReadFault.TheVariants as read_fault;

use crate::spans::name_at;
use crate::steps::{ReadFault, expect, next, take};
use std::alloc::Global;
use verse_base::refusals::Memory;
use verse_grammar::starts::{Fixed, TypeStart, type_start};
use verse_layout::toks::Tok;
use verse_tree_nodes::types::{
    array_of, bare_event, char, event_of, int, logic, map_of, named, option_of, string, task_of,
    tuple_of, void,
};
use verse_tree_nodes::written::{Written, Writtens};

/// A type.
#[cycle(type_at)]
#[tactic(auto, using(crate::proofs::RuleSets::of_type_at))]
pub fn type_at<'t>(
    alloc: Global,
    bytes: &[u8],
    toks: &'t [Tok],
) -> Result<(Written, &'t [Tok]), ReadFault>
    ensures spelled { IfOk result (λ r. IsType bytes.now toks.now (written_of r.0) r.1.now) }
    ensures eats { IfOk result (λ r. EatsRule a_type toks.now r.1.now) }
    ensures sticks { (left : ℕ) → IsErrOf result (read_fault.Stuck left) →
        SticksRule a_type toks.now left }
    ensures shorter { IfOk result (λ r. length r.1.now < length toks.now) }
{
    let Some((tok, rest)) = next(toks) else {
        return Err(ReadFault::Stuck(0));
    };
    match type_start(tok.kind) {
        Some(TypeStart::Option) => option_type(alloc, bytes, tok, rest),
        Some(TypeStart::Bracket) => bracket_type(alloc, bytes, tok, rest),
        Some(TypeStart::Tuple) => tuple_type(alloc, bytes, tok, rest),
        Some(TypeStart::Task) => task_type(alloc, bytes, tok, rest),
        Some(TypeStart::Event) => event_type(alloc, bytes, tok, rest),
        Some(TypeStart::Int) => Ok((int(), rest)),
        Some(TypeStart::Logic) => Ok((logic(), rest)),
        Some(TypeStart::Char) => Ok((char(), rest)),
        Some(TypeStart::String) => Ok((string(), rest)),
        Some(TypeStart::Void) => Ok((void(), rest)),
        Some(TypeStart::Name) => Ok((named(tok.place, name_at(alloc, bytes, tok)?), rest)),
        None => Err(ReadFault::Stuck(toks.len())),
    }
}

/// `?t`, behind its mark.
#[cycle(type_at)]
#[tactic(auto, using(crate::proofs::RuleSets::of_option_type))]
fn option_type<'t>(
    alloc: Global,
    bytes: &[u8],
    tok: Tok,
    toks: &'t [Tok],
) -> Result<(Written, &'t [Tok]), ReadFault>
    requires start { type_start tok.kind ≡ Some TypeStart.Option }
    ensures spelled { IfOk result
        (λ r. IsType bytes.now (tok ∷ toks.now) (written_of r.0) r.1.now) }
    ensures eats { IfOk result (λ r. EatsRule a_type (tok ∷ toks.now) r.1.now) }
    ensures sticks { (left : ℕ) → IsErrOf result (read_fault.Stuck left) →
        SticksRule a_type (tok ∷ toks.now) left }
    ensures shorter { IfOk result (λ r. length r.1.now < length toks.now) }
{
    let (content, rest) = type_at(alloc, bytes, toks)?;
    Ok((option_of(alloc, content)?, rest))
}

/// `[]t` and `[k]v`, behind the opening bracket.
#[cycle(type_at)]
#[tactic(auto, using(crate::proofs::RuleSets::of_bracket_type))]
fn bracket_type<'t>(
    alloc: Global,
    bytes: &[u8],
    tok: Tok,
    toks: &'t [Tok],
) -> Result<(Written, &'t [Tok]), ReadFault>
    requires start { type_start tok.kind ≡ Some TypeStart.Bracket }
    ensures spelled { IfOk result
        (λ r. IsType bytes.now (tok ∷ toks.now) (written_of r.0) r.1.now) }
    ensures eats { IfOk result (λ r. EatsRule a_type (tok ∷ toks.now) r.1.now) }
    ensures sticks { (left : ℕ) → IsErrOf result (read_fault.Stuck left) →
        SticksRule a_type (tok ∷ toks.now) left }
    ensures shorter { IfOk result (λ r. length r.1.now < length toks.now) }
{
    match take(toks, Fixed::SquareClose) {
        Some((_, rest)) => {
            let (element, rest) = type_at(alloc, bytes, rest)?;
            Ok((array_of(alloc, element)?, rest))
        }
        None => map_type(alloc, bytes, tok, toks),
    }
}

/// `[k]v`, behind the opening bracket.
#[cycle(type_at)]
#[tactic(auto, using(crate::proofs::RuleSets::of_map_type))]
fn map_type<'t>(
    alloc: Global,
    bytes: &[u8],
    tok: Tok,
    toks: &'t [Tok],
) -> Result<(Written, &'t [Tok]), ReadFault>
    requires other { ahead toks.now ≢ Some (kind_of Fixed.SquareClose) }
    requires start { type_start tok.kind ≡ Some TypeStart.Bracket }
    ensures spelled { IfOk result
        (λ r. IsType bytes.now (tok ∷ toks.now) (written_of r.0) r.1.now) }
    ensures eats { IfOk result (λ r. EatsRule a_type (tok ∷ toks.now) r.1.now) }
    ensures sticks { (left : ℕ) → IsErrOf result (read_fault.Stuck left) →
        SticksRule a_type (tok ∷ toks.now) left }
    ensures shorter { IfOk result (λ r. length r.1.now < length toks.now) }
{
    let (key, rest) = type_at(alloc, bytes, toks)?;
    let Some((_, rest)) = take(rest, Fixed::SquareClose) else {
        return Err(ReadFault::Stuck(rest.len()));
    };
    let (value, rest) = type_at(alloc, bytes, rest)?;
    Ok((map_of(alloc, key, value)?, rest))
}

/// `tuple(t, u)`, behind its word.
#[cycle(type_at)]
#[tactic(auto, using(crate::proofs::RuleSets::of_tuple_type))]
fn tuple_type<'t>(
    alloc: Global,
    bytes: &[u8],
    tok: Tok,
    toks: &'t [Tok],
) -> Result<(Written, &'t [Tok]), ReadFault>
    requires start { type_start tok.kind ≡ Some TypeStart.Tuple }
    ensures spelled { IfOk result
        (λ r. IsType bytes.now (tok ∷ toks.now) (written_of r.0) r.1.now) }
    ensures eats { IfOk result (λ r. EatsRule a_type (tok ∷ toks.now) r.1.now) }
    ensures sticks { (left : ℕ) → IsErrOf result (read_fault.Stuck left) →
        SticksRule a_type (tok ∷ toks.now) left }
    ensures shorter { IfOk result (λ r. length r.1.now < length toks.now) }
{
    let (_, rest) = expect(toks, Fixed::RoundOpen)?;
    let (first, rest) = type_at(alloc, bytes, rest)?;
    let (_, rest) = expect(rest, Fixed::Comma)?;
    let (parts, rest) = types(alloc, bytes, rest)?;
    let (_, rest) = expect(rest, Fixed::RoundClose)?;
    Ok((tuple_of(with_first(alloc, first, parts)?), rest))
}

/// Types with commas between them.
#[cycle(type_at)]
#[tactic(auto, using(crate::proofs::RuleSets::of_types))]
fn types<'t>(
    alloc: Global,
    bytes: &[u8],
    toks: &'t [Tok],
) -> Result<(Writtens, &'t [Tok]), ReadFault>
    ensures spelled { IfOk result (λ r. AreTypes bytes.now toks.now (map written_of r.0) r.1.now) }
    ensures eats { IfOk result (λ r. EatsRule types toks.now r.1.now) }
    ensures sticks { (left : ℕ) → IsErrOf result (read_fault.Stuck left) →
        SticksRule types toks.now left }
    ensures shorter { IfOk result (λ r. length r.1.now < length toks.now) }
{
    let (first, after) = type_at(alloc, bytes, toks)?;
    let mut parts = Writtens::new(alloc);
    parts.push(first)?;
    let mut rest = after;
    'more: while let Some((_, behind)) = take(rest, Fixed::Comma) {
        let (part, left) = type_at(alloc, bytes, behind)?;
        parts.push(part)?;
        rest = left;
    }
    Ok((parts, rest))
}

/// `task(t)`, behind its word.
#[cycle(type_at)]
#[tactic(auto, using(crate::proofs::RuleSets::of_task_type))]
fn task_type<'t>(
    alloc: Global,
    bytes: &[u8],
    tok: Tok,
    toks: &'t [Tok],
) -> Result<(Written, &'t [Tok]), ReadFault>
    requires start { type_start tok.kind ≡ Some TypeStart.Task }
    ensures spelled { IfOk result
        (λ r. IsType bytes.now (tok ∷ toks.now) (written_of r.0) r.1.now) }
    ensures eats { IfOk result (λ r. EatsRule a_type (tok ∷ toks.now) r.1.now) }
    ensures sticks { (left : ℕ) → IsErrOf result (read_fault.Stuck left) →
        SticksRule a_type (tok ∷ toks.now) left }
    ensures shorter { IfOk result (λ r. length r.1.now < length toks.now) }
{
    let (_, rest) = expect(toks, Fixed::RoundOpen)?;
    let (content, rest) = type_at(alloc, bytes, rest)?;
    let (_, rest) = expect(rest, Fixed::RoundClose)?;
    Ok((task_of(alloc, content)?, rest))
}

/// `event(t)` and `event()`, behind their word.
#[cycle(type_at)]
#[tactic(auto, using(crate::proofs::RuleSets::of_event_type))]
fn event_type<'t>(
    alloc: Global,
    bytes: &[u8],
    tok: Tok,
    toks: &'t [Tok],
) -> Result<(Written, &'t [Tok]), ReadFault>
    requires start { type_start tok.kind ≡ Some TypeStart.Event }
    ensures spelled { IfOk result
        (λ r. IsType bytes.now (tok ∷ toks.now) (written_of r.0) r.1.now) }
    ensures eats { IfOk result (λ r. EatsRule a_type (tok ∷ toks.now) r.1.now) }
    ensures sticks { (left : ℕ) → IsErrOf result (read_fault.Stuck left) →
        SticksRule a_type (tok ∷ toks.now) left }
    ensures shorter { IfOk result (λ r. length r.1.now < length toks.now) }
{
    let (_, rest) = expect(toks, Fixed::RoundOpen)?;
    match take(rest, Fixed::RoundClose) {
        Some((_, rest)) => Ok((bare_event(), rest)),
        None => {
            let (content, rest) = type_at(alloc, bytes, rest)?;
            let (_, rest) = expect(rest, Fixed::RoundClose)?;
            Ok((event_of(alloc, content)?, rest))
        }
    }
}

/// A first part before others.
fn with_first(alloc: Global, first: Written, parts: Writtens) -> Result<Writtens, Memory>
    ensures { IfOk result (λ r. map written_of r ≡ written_of first ∷ map written_of parts) }
{
    let mut all = Writtens::new(alloc);
    all.push(first)?;
    all.append(parts)?;
    Ok(all)
}
