//! Primary forms in round brackets.

ghost use Rattle.std.specs.Prelude.{◌≡◌, ◌<◌, ◌≤◌, ◌∷◌, ℕ, Some, IfOk, length, map};
ghost use Rattle.std.specs.Option.{option_map};
ghost use Rattle.std.specs.Result.{IsErrOf};
ghost use Rattle.verse_tree.specs.Tree.{tree};
ghost use Rattle.verse_tree.specs.View.{tree_of, written_of};
ghost use Rattle.verse_grammar.specs.Exprs.{Reads, BracketType};
ghost use Rattle.verse_grammar.specs.Starts.{primary_start};
ghost use Rattle.verse_grammar.specs.Symbols.{phrase, bracket_type, round_rest};
ghost use Rattle.verse_grammar.specs.Reading.{EatsRule, SticksRule};
ghost use Rattle.verse_grammar.specs.declared.phrases.Phrase.{Phrase};
ghost use Rattle.verse_grammar.specs.declared.starts.PrimaryStart.{PrimaryStart};
ghost use Rattle.verse_expr_primary.specs.Parts.{slept};
ghost use Rattle.verse_expr_primary.specs.Rounds.{RoundRest, rounded};
ghost use Rattle.verse_expr_reader.specs.Nests.{Nests};
ghost use Rattle.verse_expr_reader.specs.declared.steps.ReadFault.TheVariants as read_fault;

use std::alloc::Global;
use verse_base::places::Place;
use verse_base::refusals::Memory;
use verse_expr_reader::nesting::Reader;
use verse_expr_reader::steps::{ReadFault, expect, next, take};
use verse_expr_reader::types::type_at;
use verse_grammar::phrases::Phrase;
use verse_grammar::starts::{Duration, Fixed, duration_at};
use verse_layout::toks::Tok;
use verse_tree_nodes::trees::{Tree, Trees};
use verse_tree_nodes::written::Written;
use verse_tree_nodes::{forms, literals};

/// An expression in round brackets, or a tuple.
#[tactic(auto, using(crate::proofs::RuleSets::of_round))]
pub fn round<'t, F: Fn(Global, &[u8], Phrase, &[Tok]) -> Result<(Tree, usize), ReadFault>>(
    reader: &Reader<'_, F>,
    tok: Tok,
    toks: &'t [Tok],
) -> Result<(Tree, &'t [Tok]), ReadFault>
    requires nests { Nests reader.now.bytes.now reader.now.most (F.pre reader.now.nested)
        (F.post reader.now.nested) }
    requires fewer { length toks.now < reader.now.most }
    requires start { primary_start tok.kind ≡ Some PrimaryStart.Round }
    ensures spelled { IfOk result (λ r. Reads reader.now.bytes.now Phrase.Primary (tok ∷ toks.now)
        (tree_of r.0) r.1.now) }
    ensures eats { IfOk result (λ r. EatsRule (phrase Phrase.Primary) (tok ∷ toks.now) r.1.now) }
    ensures sticks { (left : ℕ) → IsErrOf result (read_fault.Stuck left) →
        SticksRule (phrase Phrase.Primary) (tok ∷ toks.now) left }
    ensures shorter { IfOk result (λ r. length r.1.now ≤ length toks.now) }
{
    let (first, behind) = reader.inner(Phrase::Expr, toks)?;
    let (more, rest) = others(reader, behind)?;
    Ok((rounded(reader.alloc, tok.place, first, more)?, rest))
}

/// What stands behind the first expression in round brackets: others behind a comma, or none.
#[tactic(auto, using(crate::proofs::RuleSets::of_others))]
fn others<'t, F: Fn(Global, &[u8], Phrase, &[Tok]) -> Result<(Tree, usize), ReadFault>>(
    reader: &Reader<'_, F>,
    toks: &'t [Tok],
) -> Result<(Option<Trees>, &'t [Tok]), ReadFault>
    requires nests { Nests reader.now.bytes.now reader.now.most (F.pre reader.now.nested)
        (F.post reader.now.nested) }
    requires fewer { length toks.now < reader.now.most }
    ensures spelled { IfOk result
        (λ r. RoundRest reader.now.bytes.now toks.now (option_map (map tree_of) r.0) r.1.now) }
    ensures eats { IfOk result (λ r. EatsRule round_rest toks.now r.1.now) }
    ensures sticks { (left : ℕ) → IsErrOf result (read_fault.Stuck left) →
        SticksRule round_rest toks.now left }
    ensures shorter { IfOk result (λ r. length r.1.now < length toks.now) }
{
    match take(toks, Fixed::Comma) {
        Some((_, behind)) => {
            let (more, rest) = reader.closed(
                Phrase::Expr,
                Fixed::Comma,
                Fixed::RoundClose,
                behind,
            )?;
            Ok((Some(more), rest))
        }
        None => {
            let (_, rest) = expect(toks, Fixed::RoundClose)?;
            Ok((None, rest))
        }
    }
}

/// `event(t){}`
#[tactic(auto, using(crate::proofs::RuleSets::of_event))]
pub fn event<'t, F: Fn(Global, &[u8], Phrase, &[Tok]) -> Result<(Tree, usize), ReadFault>>(
    reader: &Reader<'_, F>,
    tok: Tok,
    toks: &'t [Tok],
) -> Result<(Tree, &'t [Tok]), ReadFault>
    requires start { primary_start tok.kind ≡ Some PrimaryStart.Event }
    ensures spelled { IfOk result (λ r. Reads reader.now.bytes.now Phrase.Primary (tok ∷ toks.now)
        (tree_of r.0) r.1.now) }
    ensures eats { IfOk result (λ r. EatsRule (phrase Phrase.Primary) (tok ∷ toks.now) r.1.now) }
    ensures sticks { (left : ℕ) → IsErrOf result (read_fault.Stuck left) →
        SticksRule (phrase Phrase.Primary) (tok ∷ toks.now) left }
    ensures shorter { IfOk result (λ r. length r.1.now ≤ length toks.now) }
{
    let (ty, behind) = bracket_type(reader.alloc, reader.bytes, toks)?;
    let (_, behind) = expect(behind, Fixed::Open)?;
    let (_, rest) = expect(behind, Fixed::Close)?;
    Ok((literals::event(reader.alloc, tok.place, ty)?, rest))
}

/// `Sleep(D)`
#[tactic(auto, using(crate::proofs::RuleSets::of_sleep))]
pub fn sleep<'t, F: Fn(Global, &[u8], Phrase, &[Tok]) -> Result<(Tree, usize), ReadFault>>(
    reader: &Reader<'_, F>,
    tok: Tok,
    toks: &'t [Tok],
) -> Result<(Tree, &'t [Tok]), ReadFault>
    requires start { primary_start tok.kind ≡ Some PrimaryStart.Sleep }
    ensures spelled { IfOk result (λ r. Reads reader.now.bytes.now Phrase.Primary (tok ∷ toks.now)
        (tree_of r.0) r.1.now) }
    ensures eats { IfOk result (λ r. EatsRule (phrase Phrase.Primary) (tok ∷ toks.now) r.1.now) }
    ensures sticks { (left : ℕ) → IsErrOf result (read_fault.Stuck left) →
        SticksRule (phrase Phrase.Primary) (tok ∷ toks.now) left }
    ensures shorter { IfOk result (λ r. length r.1.now ≤ length toks.now) }
{
    let (_, behind) = expect(toks, Fixed::RoundOpen)?;
    match next(behind) {
        Some((time, after)) => match duration_at(time.kind) {
            Some(duration) => {
                let (_, rest) = expect(after, Fixed::RoundClose)?;
                Ok((slept(reader.alloc, tok.place, duration)?, rest))
            }
            None => Err(ReadFault::Stuck(behind.len())),
        },
        None => Err(ReadFault::Stuck(0)),
    }
}

/// A type in round brackets, or nothing in them.
#[tactic(auto, using(crate::proofs::RuleSets::of_bracket_type))]
pub fn bracket_type<'t>(
    alloc: Global,
    bytes: &[u8],
    toks: &'t [Tok],
) -> Result<(Option<Written>, &'t [Tok]), ReadFault>
    ensures spelled { IfOk result
        (λ r. BracketType bytes.now toks.now (option_map written_of r.0) r.1.now) }
    ensures eats { IfOk result (λ r. EatsRule bracket_type toks.now r.1.now) }
    ensures sticks { (left : ℕ) → IsErrOf result (read_fault.Stuck left) →
        SticksRule bracket_type toks.now left }
    ensures shorter { IfOk result (λ r. length r.1.now < length toks.now) }
{
    let (_, behind) = expect(toks, Fixed::RoundOpen)?;
    match take(behind, Fixed::RoundClose) {
        Some((_, rest)) => Ok((None, rest)),
        None => {
            let (ty, behind) = type_at(alloc, bytes, behind)?;
            let (_, rest) = expect(behind, Fixed::RoundClose)?;
            Ok((Some(ty), rest))
        }
    }
}

/// An expression by itself, or a tuple with others behind it.
fn rounded(alloc: Global, place: Place, first: Tree, more: Option<Trees>) -> Result<Tree, Memory>
    ensures { IfOk result (λ r. tree_of r ≡
        rounded place (tree_of first) (option_map (map tree_of) more)) }
{
    match more {
        Some(more) => literals::tuple(alloc, place, joined(alloc, first, more)?),
        None => Ok(first),
    }
}

/// An expression before others.
fn joined(alloc: Global, first: Tree, more: Trees) -> Result<Trees, Memory>
    ensures { IfOk result (λ r. map tree_of r ≡ tree_of first ∷ map tree_of more) }
{
    let mut parts = Trees::new(alloc);
    parts.push(first)?;
    parts.append(more)?;
    Ok(parts)
}

/// The node of a `Sleep`.
fn slept(alloc: Global, place: Place, duration: Duration) -> Result<Tree, Memory>
    ensures { IfOk result (λ r. tree_of r ≡ tree 0 place (slept duration)) }
{
    match duration {
        Duration::Milliseconds(milliseconds) => forms::sleep(alloc, place, milliseconds),
        Duration::Forever => forms::sleep_forever(alloc, place),
    }
}
