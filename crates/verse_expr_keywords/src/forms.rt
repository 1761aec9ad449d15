//! Primary forms with a word of their own.

ghost use Rattle.std.specs.Prelude.{◌≡◌, ◌<◌, ◌≤◌, ◌∷◌, ℕ, Some, IfOk, length, map};
ghost use Rattle.std.specs.Result.{IsErrOf};
ghost use Rattle.verse_tree.specs.View.{tree_of};
ghost use Rattle.verse_grammar.specs.Exprs.{Reads, Clauses};
ghost use Rattle.verse_grammar.specs.Starts.{primary_start, kind_of};
ghost use Rattle.verse_grammar.specs.Symbols.{phrase, clauses};
ghost use Rattle.verse_grammar.specs.Reading.{EatsRule, SticksRule};
ghost use Rattle.verse_grammar.specs.declared.phrases.Phrase.{Phrase};
ghost use Rattle.verse_expr_keywords.specs.Between.{SticksBetween};
ghost use Rattle.verse_grammar.specs.declared.starts.PrimaryStart.{PrimaryStart};
ghost use Rattle.verse_expr_reader.specs.Nests.{Nests};
ghost use Rattle.verse_expr_reader.specs.declared.steps.ReadFault.TheVariants as read_fault;

use std::alloc::Global;
use verse_expr_reader::nesting::Reader;
use verse_expr_reader::steps::{ReadFault, expect, take};
use verse_grammar::phrases::Phrase;
use verse_grammar::starts::Fixed;
use verse_layout::toks::Tok;
use verse_tree_nodes::forms;
use verse_tree_nodes::trees::{Tree, Trees};

/// `for`
#[tactic(auto, using(crate::proofs::RuleSets::of_for_form))]
pub fn for_form<'t, F: Fn(Global, &[u8], Phrase, &[Tok]) -> Result<(Tree, usize), ReadFault>>(
    reader: &Reader<'_, F>,
    tok: Tok,
    toks: &'t [Tok],
) -> Result<(Tree, &'t [Tok]), ReadFault>
    requires nests { Nests reader.now.bytes.now reader.now.most (F.pre reader.now.nested)
        (F.post reader.now.nested) }
    requires fewer { length toks.now < reader.now.most }
    requires start { primary_start tok.kind ≡ Some PrimaryStart.For }
    ensures spelled { IfOk result (λ r. Reads reader.now.bytes.now Phrase.Primary (tok ∷ toks.now)
        (tree_of r.0) r.1.now) }
    ensures eats { IfOk result (λ r. EatsRule (phrase Phrase.Primary) (tok ∷ toks.now) r.1.now) }
    ensures sticks { (left : ℕ) → IsErrOf result (read_fault.Stuck left) →
        SticksRule (phrase Phrase.Primary) (tok ∷ toks.now) left }
    ensures shorter { IfOk result (λ r. length r.1.now ≤ length toks.now) }
{
    let (_, behind) = expect(toks, Fixed::RoundOpen)?;
    let (parts, behind) = clauses(reader, behind)?;
    let (body, rest) = reader.inner(Phrase::Block, behind)?;
    Ok((forms::for_form(reader.alloc, tok.place, parts, body)?, rest))
}

/// A generator, and clauses behind it, up to the closing bracket.
#[tactic(auto, using(crate::proofs::RuleSets::of_clauses))]
fn clauses<'t, F: Fn(Global, &[u8], Phrase, &[Tok]) -> Result<(Tree, usize), ReadFault>>(
    reader: &Reader<'_, F>,
    toks: &'t [Tok],
) -> Result<(Trees, &'t [Tok]), ReadFault>
    requires nests { Nests reader.now.bytes.now reader.now.most (F.pre reader.now.nested)
        (F.post reader.now.nested) }
    requires fewer { length toks.now < reader.now.most }
    ensures spelled { IfOk result
        (λ r. Clauses reader.now.bytes.now toks.now (map tree_of r.0) r.1.now) }
    ensures eats { IfOk result (λ r. EatsRule clauses toks.now r.1.now) }
    ensures sticks { (left : ℕ) → IsErrOf result (read_fault.Stuck left) →
        SticksRule clauses toks.now left }
    ensures shorter { IfOk result (λ r. length r.1.now < length toks.now) }
{
    let (first, after) = reader.inner(Phrase::Generator, toks)?;
    let mut parts = Trees::new(reader.alloc);
    parts.push(first)?;
    let mut rest = after;
    'more: while let Some((_, behind)) = take(rest, Fixed::Comma) {
        let (part, left) = reader.inner(Phrase::Clause, behind)?;
        parts.push(part)?;
        rest = left;
    }
    match take(rest, Fixed::RoundClose) {
        Some((_, rest)) => Ok((parts, rest)),
        None => Err(ReadFault::Stuck(rest.len())),
    }
}

/// `case`
#[tactic(auto, using(crate::proofs::RuleSets::of_cases))]
pub fn cases<'t, F: Fn(Global, &[u8], Phrase, &[Tok]) -> Result<(Tree, usize), ReadFault>>(
    reader: &Reader<'_, F>,
    tok: Tok,
    toks: &'t [Tok],
) -> Result<(Tree, &'t [Tok]), ReadFault>
    requires nests { Nests reader.now.bytes.now reader.now.most (F.pre reader.now.nested)
        (F.post reader.now.nested) }
    requires fewer { length toks.now < reader.now.most }
    requires start { primary_start tok.kind ≡ Some PrimaryStart.Case }
    ensures spelled { IfOk result (λ r. Reads reader.now.bytes.now Phrase.Primary (tok ∷ toks.now)
        (tree_of r.0) r.1.now) }
    ensures eats { IfOk result (λ r. EatsRule (phrase Phrase.Primary) (tok ∷ toks.now) r.1.now) }
    ensures sticks { (left : ℕ) → IsErrOf result (read_fault.Stuck left) →
        SticksRule (phrase Phrase.Primary) (tok ∷ toks.now) left }
    ensures shorter { IfOk result (λ r. length r.1.now ≤ length toks.now) }
{
    let (_, behind) = expect(toks, Fixed::RoundOpen)?;
    let (subject, behind) = reader.inner(Phrase::Expr, behind)?;
    match expect_both(behind, Fixed::RoundClose, Fixed::Open) {
        Ok((_, behind)) => match reader.closed(Phrase::Arm, Fixed::Sep, Fixed::Close, behind) {
            Ok((arms, rest)) => Ok((forms::cases(reader.alloc, tok.place, subject, arms)?, rest)),
            Err(fault) => {
                drop(subject);
                Err(fault)
            }
        },
        Err(fault) => {
            drop(subject);
            Err(fault)
        }
    }
}

/// The first two toks, which are to be of these kinds, and those behind them.
#[tactic(auto, using(crate::specs::Between::before_first, crate::specs::Between::before_second))]
fn expect_both(toks: &[Tok], first: Fixed, second: Fixed) -> Result<((Tok, Tok), &[Tok]), ReadFault>
    ensures found { IfOk result (λ r. toks.now ≡ r.0.0 ∷ r.0.1 ∷ r.1.now) }
    ensures kinds { IfOk result (λ r. (r.0.0.kind ≡ kind_of first) ×
        (r.0.1.kind ≡ kind_of second)) }
    ensures sticks { (left : ℕ) → IsErrOf result (read_fault.Stuck left) →
        SticksBetween (kind_of first) (kind_of second) toks.now left }
{
    let (one, behind) = expect(toks, first)?;
    let (other, rest) = expect(behind, second)?;
    Ok(((one, other), rest))
}
