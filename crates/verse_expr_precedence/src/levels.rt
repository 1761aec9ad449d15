//! The levels of operators, from the loosest.

ghost use Rattle.std.specs.Prelude.{◌≡◌, Some, None, ◌<◌, ◌≤◌, ◌∷◌, ℕ, IfOk, MatchOption, length};
ghost use Rattle.std.specs.Result.{IsErrOf};
ghost use Rattle.verse_tree.specs.View.{tree_of};
ghost use Rattle.verse_grammar.specs.Exprs.{Reads, Chain, chain_operator, operand};
ghost use Rattle.verse_grammar.specs.Starts.{comparison_at};
ghost use Rattle.verse_grammar.specs.Symbols.{phrase, first_as, chain_tail, comparison_tail};
ghost use Rattle.verse_grammar.specs.Reading.{EatsRule, SticksRule};
ghost use Rattle.verse_grammar.specs.declared.phrases.Phrase.{Phrase};
ghost use Rattle.verse_expr_reader.specs.Nests.{Nests};
ghost use Rattle.verse_expr_precedence.specs.Compares.{Compares};
ghost use Rattle.verse_expr_reader.specs.declared.steps.ReadFault.TheVariants as read_fault;

use crate::postfixes::postfix;
use std::alloc::Global;
use verse_expr_reader::nesting::Reader;
use verse_expr_reader::steps::{ReadFault, next, take};
use verse_grammar::phrases::Phrase;
use verse_grammar::starts::{Fixed, comparison_at, product_operator, sum_operator};
use verse_layout::toks::{Tok, TokKind};
use verse_lex::tokens::{TokenKind, Word};
use verse_tree::exprs::{Comparison, Operator};
use verse_tree_nodes::operators;
use verse_tree_nodes::trees::Tree;

/// The operator with which a chain of this level goes on.
fn chain_operator(level: Phrase, kind: TokKind) -> Option<Operator>
    ensures { result ≡ chain_operator level kind }
{
    match (level, kind) {
        (Phrase::Or, TokKind::Plain(TokenKind::Word(Word::Or))) => Some(Operator::Or),
        (Phrase::And, TokKind::Plain(TokenKind::Word(Word::And))) => Some(Operator::And),
        (Phrase::Sum, _) => sum_operator(kind),
        (Phrase::Product, _) => product_operator(kind),
        _ => None,
    }
}

/// The phrases that a chain of this level joins.
fn operand(level: Phrase) -> Phrase
    ensures { result ≡ operand level }
{
    match level {
        Phrase::Or => Phrase::And,
        Phrase::And => Phrase::Not,
        Phrase::Sum => Phrase::Product,
        Phrase::Product => Phrase::Minus,
        _ => level,
    }
}

/// The operator at the front with its tok, and the toks behind it.
fn operator_ahead(level: Phrase, toks: &[Tok]) -> Option<(Operator, Tok, &[Tok])>
    ensures { MatchOption result (first_as (chain_operator level) toks.now ≡ None)
        (λ r. (toks.now ≡ r.1 ∷ r.2.now) × (chain_operator level r.1.kind ≡ Some r.0)) }
{
    let (tok, behind) = next(toks)?;
    let operator = chain_operator(level, tok.kind)?;
    Some((operator, tok, behind))
}

/// The comparison at the front with its tok, and the toks behind it.
fn comparison_ahead(toks: &[Tok]) -> Option<(Comparison, Tok, &[Tok])>
    ensures { MatchOption result (first_as comparison_at toks.now ≡ None)
        (λ r. (toks.now ≡ r.1 ∷ r.2.now) × (comparison_at r.1.kind ≡ Some r.0)) }
{
    let (tok, behind) = next(toks)?;
    let comparison = comparison_at(tok.kind)?;
    Some((comparison, tok, behind))
}

/// Operands that are joined to the tree so far, from the left.
#[tactic(auto, using(crate::proofs::RuleSets::of_chain_tail))]
pub fn chain_tail<'t, F: Fn(Global, &[u8], Phrase, &[Tok]) -> Result<(Tree, usize), ReadFault>>(
    reader: &Reader<'_, F>,
    level: Phrase,
    left: Tree,
    toks: &'t [Tok],
) -> Result<(Tree, &'t [Tok]), ReadFault>
    requires nests { Nests reader.now.bytes.now reader.now.most (F.pre reader.now.nested)
        (F.post reader.now.nested) }
    requires fewer { length toks.now < reader.now.most }
    ensures spelled { IfOk result
        (λ r. Chain reader.now.bytes.now level (tree_of left) toks.now (tree_of r.0) r.1.now) }
    ensures eats { IfOk result (λ r. EatsRule (chain_tail level) toks.now r.1.now) }
    ensures sticks { (left : ℕ) → IsErrOf result (read_fault.Stuck left) →
        SticksRule (chain_tail level) toks.now left }
    ensures shorter { IfOk result (λ r. length r.1.now ≤ length toks.now) }
{
    let mut tree = left;
    let mut rest = toks;
    'operands: while let Some((operator, tok, behind)) = operator_ahead(level, rest) {
        let (right, after) = reader.inner(operand(level), behind)?;
        tree = operators::chained(reader.alloc, tok.place, operator, tree, right)?;
        rest = after;
    }
    Ok((tree, rest))
}

/// `E or F`, and what binds closer.
#[tactic(auto, using(crate::proofs::RuleSets::of_ors))]
pub fn ors<'t, F: Fn(Global, &[u8], Phrase, &[Tok]) -> Result<(Tree, usize), ReadFault>>(
    reader: &Reader<'_, F>,
    toks: &'t [Tok],
) -> Result<(Tree, &'t [Tok]), ReadFault>
    requires nests { Nests reader.now.bytes.now reader.now.most (F.pre reader.now.nested)
        (F.post reader.now.nested) }
    requires within { length toks.now ≤ reader.now.most }
    ensures spelled { IfOk result
        (λ r. Reads reader.now.bytes.now Phrase.Or toks.now (tree_of r.0) r.1.now) }
    ensures eats { IfOk result (λ r. EatsRule (phrase Phrase.Or) toks.now r.1.now) }
    ensures sticks { (left : ℕ) → IsErrOf result (read_fault.Stuck left) →
        SticksRule (phrase Phrase.Or) toks.now left }
    ensures shorter { IfOk result (λ r. length r.1.now < length toks.now) }
{
    let (first, rest) = ands(reader, toks)?;
    chain_tail(reader, Phrase::Or, first, rest)
}

/// `E and F`, and what binds closer.
#[tactic(auto, using(crate::proofs::RuleSets::of_ands))]
pub fn ands<'t, F: Fn(Global, &[u8], Phrase, &[Tok]) -> Result<(Tree, usize), ReadFault>>(
    reader: &Reader<'_, F>,
    toks: &'t [Tok],
) -> Result<(Tree, &'t [Tok]), ReadFault>
    requires nests { Nests reader.now.bytes.now reader.now.most (F.pre reader.now.nested)
        (F.post reader.now.nested) }
    requires within { length toks.now ≤ reader.now.most }
    ensures spelled { IfOk result
        (λ r. Reads reader.now.bytes.now Phrase.And toks.now (tree_of r.0) r.1.now) }
    ensures eats { IfOk result (λ r. EatsRule (phrase Phrase.And) toks.now r.1.now) }
    ensures sticks { (left : ℕ) → IsErrOf result (read_fault.Stuck left) →
        SticksRule (phrase Phrase.And) toks.now left }
    ensures shorter { IfOk result (λ r. length r.1.now < length toks.now) }
{
    let (first, rest) = negated(reader, toks)?;
    chain_tail(reader, Phrase::And, first, rest)
}

/// `E + F` and `E - F`, and what binds closer.
#[tactic(auto, using(crate::proofs::RuleSets::of_sum))]
pub fn sum<'t, F: Fn(Global, &[u8], Phrase, &[Tok]) -> Result<(Tree, usize), ReadFault>>(
    reader: &Reader<'_, F>,
    toks: &'t [Tok],
) -> Result<(Tree, &'t [Tok]), ReadFault>
    requires nests { Nests reader.now.bytes.now reader.now.most (F.pre reader.now.nested)
        (F.post reader.now.nested) }
    requires within { length toks.now ≤ reader.now.most }
    ensures spelled { IfOk result
        (λ r. Reads reader.now.bytes.now Phrase.Sum toks.now (tree_of r.0) r.1.now) }
    ensures eats { IfOk result (λ r. EatsRule (phrase Phrase.Sum) toks.now r.1.now) }
    ensures sticks { (left : ℕ) → IsErrOf result (read_fault.Stuck left) →
        SticksRule (phrase Phrase.Sum) toks.now left }
    ensures shorter { IfOk result (λ r. length r.1.now < length toks.now) }
{
    let (first, rest) = product(reader, toks)?;
    chain_tail(reader, Phrase::Sum, first, rest)
}

/// `E * F` and `E / F`, and what binds closer.
#[tactic(auto, using(crate::proofs::RuleSets::of_product))]
pub fn product<'t, F: Fn(Global, &[u8], Phrase, &[Tok]) -> Result<(Tree, usize), ReadFault>>(
    reader: &Reader<'_, F>,
    toks: &'t [Tok],
) -> Result<(Tree, &'t [Tok]), ReadFault>
    requires nests { Nests reader.now.bytes.now reader.now.most (F.pre reader.now.nested)
        (F.post reader.now.nested) }
    requires within { length toks.now ≤ reader.now.most }
    ensures spelled { IfOk result
        (λ r. Reads reader.now.bytes.now Phrase.Product toks.now (tree_of r.0) r.1.now) }
    ensures eats { IfOk result (λ r. EatsRule (phrase Phrase.Product) toks.now r.1.now) }
    ensures sticks { (left : ℕ) → IsErrOf result (read_fault.Stuck left) →
        SticksRule (phrase Phrase.Product) toks.now left }
    ensures shorter { IfOk result (λ r. length r.1.now < length toks.now) }
{
    let (first, rest) = negative(reader, toks)?;
    chain_tail(reader, Phrase::Product, first, rest)
}

/// `not E`, or a comparison.
#[tactic(auto, using(crate::proofs::RuleSets::of_negated))]
pub fn negated<'t, F: Fn(Global, &[u8], Phrase, &[Tok]) -> Result<(Tree, usize), ReadFault>>(
    reader: &Reader<'_, F>,
    toks: &'t [Tok],
) -> Result<(Tree, &'t [Tok]), ReadFault>
    requires nests { Nests reader.now.bytes.now reader.now.most (F.pre reader.now.nested)
        (F.post reader.now.nested) }
    requires within { length toks.now ≤ reader.now.most }
    ensures spelled { IfOk result
        (λ r. Reads reader.now.bytes.now Phrase.Not toks.now (tree_of r.0) r.1.now) }
    ensures eats { IfOk result (λ r. EatsRule (phrase Phrase.Not) toks.now r.1.now) }
    ensures sticks { (left : ℕ) → IsErrOf result (read_fault.Stuck left) →
        SticksRule (phrase Phrase.Not) toks.now left }
    ensures shorter { IfOk result (λ r. length r.1.now < length toks.now) }
{
    match take(toks, Fixed::Not) {
        Some((tok, rest)) => {
            let (operand, rest) = reader.inner(Phrase::Not, rest)?;
            Ok((operators::negation(reader.alloc, tok.place, operand)?, rest))
        }
        None => comparison(reader, toks),
    }
}

/// Two sums that are compared, or one.
#[tactic(auto, using(crate::proofs::RuleSets::of_comparison))]
pub fn comparison<'t, F: Fn(Global, &[u8], Phrase, &[Tok]) -> Result<(Tree, usize), ReadFault>>(
    reader: &Reader<'_, F>,
    toks: &'t [Tok],
) -> Result<(Tree, &'t [Tok]), ReadFault>
    requires nests { Nests reader.now.bytes.now reader.now.most (F.pre reader.now.nested)
        (F.post reader.now.nested) }
    requires within { length toks.now ≤ reader.now.most }
    ensures spelled { IfOk result
        (λ r. Reads reader.now.bytes.now Phrase.Comparison toks.now (tree_of r.0) r.1.now) }
    ensures eats { IfOk result (λ r. EatsRule (phrase Phrase.Comparison) toks.now r.1.now) }
    ensures sticks { (left : ℕ) → IsErrOf result (read_fault.Stuck left) →
        SticksRule (phrase Phrase.Comparison) toks.now left }
    ensures shorter { IfOk result (λ r. length r.1.now < length toks.now) }
{
    let (left, rest) = sum(reader, toks)?;
    comparison_tail(reader, left, rest)
}

/// What a sum is compared with, if anything.
#[tactic(auto, using(crate::proofs::RuleSets::of_comparison_tail))]
pub fn comparison_tail<
    't,
    F: Fn(Global, &[u8], Phrase, &[Tok]) -> Result<(Tree, usize), ReadFault>,
>(reader: &Reader<'_, F>, left: Tree, toks: &'t [Tok]) -> Result<(Tree, &'t [Tok]), ReadFault>
    requires nests { Nests reader.now.bytes.now reader.now.most (F.pre reader.now.nested)
        (F.post reader.now.nested) }
    requires fewer { length toks.now < reader.now.most }
    ensures spelled { IfOk result
        (λ r. Compares reader.now.bytes.now (tree_of left) toks.now (tree_of r.0) r.1.now) }
    ensures eats { IfOk result (λ r. EatsRule comparison_tail toks.now r.1.now) }
    ensures sticks { (left : ℕ) → IsErrOf result (read_fault.Stuck left) →
        SticksRule comparison_tail toks.now left }
    ensures shorter { IfOk result (λ r. length r.1.now ≤ length toks.now) }
{
    match comparison_ahead(toks) {
        Some((comparison, tok, behind)) => {
            let (right, rest) = reader.inner(Phrase::Sum, behind)?;
            Ok((
                operators::compared(reader.alloc, tok.place, comparison, left, right)?,
                rest,
            ))
        }
        None => Ok((left, toks)),
    }
}

/// `-E`, or a postfix.
#[tactic(auto, using(crate::proofs::RuleSets::of_negative))]
pub fn negative<'t, F: Fn(Global, &[u8], Phrase, &[Tok]) -> Result<(Tree, usize), ReadFault>>(
    reader: &Reader<'_, F>,
    toks: &'t [Tok],
) -> Result<(Tree, &'t [Tok]), ReadFault>
    requires nests { Nests reader.now.bytes.now reader.now.most (F.pre reader.now.nested)
        (F.post reader.now.nested) }
    requires within { length toks.now ≤ reader.now.most }
    ensures spelled { IfOk result
        (λ r. Reads reader.now.bytes.now Phrase.Minus toks.now (tree_of r.0) r.1.now) }
    ensures eats { IfOk result (λ r. EatsRule (phrase Phrase.Minus) toks.now r.1.now) }
    ensures sticks { (left : ℕ) → IsErrOf result (read_fault.Stuck left) →
        SticksRule (phrase Phrase.Minus) toks.now left }
    ensures shorter { IfOk result (λ r. length r.1.now < length toks.now) }
{
    match take(toks, Fixed::Minus) {
        Some((tok, rest)) => {
            let (operand, rest) = reader.inner(Phrase::Minus, rest)?;
            Ok((operators::minus(reader.alloc, tok.place, operand)?, rest))
        }
        None => postfix(reader, toks),
    }
}
