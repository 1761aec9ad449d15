//! Primary forms in braces.

ghost use Rattle.std.specs.Prelude.{◌≡◌, ◌≢◌, ◌<◌, ◌≤◌, ◌∷◌, ℕ, Some, IfOk, length, map};
ghost use Rattle.std.specs.Result.{IsErrOf};
ghost use Rattle.verse_tree.specs.View.{tree_of, pair_of};
ghost use Rattle.verse_grammar.specs.Toks.{ahead};
ghost use Rattle.verse_grammar.specs.Exprs.{Reads, PairsUntil};
ghost use Rattle.verse_grammar.specs.Starts.{primary_start, kind_of};
ghost use Rattle.verse_grammar.specs.Symbols.{phrase, pair, pairs_until};
ghost use Rattle.verse_grammar.specs.Reading.{EatsRule, SticksRule};
ghost use Rattle.verse_grammar.specs.declared.phrases.Phrase.{Phrase};
ghost use Rattle.verse_grammar.specs.declared.starts.PrimaryStart.{PrimaryStart};
ghost use Rattle.verse_grammar.specs.declared.starts.Fixed.{Fixed};
ghost use Rattle.verse_expr_primary.specs.Parts.{IsPair};
ghost use Rattle.verse_expr_reader.specs.Nests.{Nests};
ghost use Rattle.verse_expr_reader.specs.declared.steps.ReadFault.TheVariants as read_fault;

use std::alloc::Global;
use verse_expr_reader::nesting::Reader;
use verse_expr_reader::steps::{ReadFault, expect, take};
use verse_grammar::phrases::Phrase;
use verse_grammar::starts::Fixed;
use verse_layout::toks::Tok;
use verse_tree_nodes::lists::Pairs;
use verse_tree_nodes::trees::Tree;
use verse_tree_nodes::{forms, literals};

/// `spawn{E}`
#[tactic(auto, using(crate::proofs::RuleSets::of_spawn))]
pub fn spawn<'t, F: Fn(Global, &[u8], Phrase, &[Tok]) -> Result<(Tree, usize), ReadFault>>(
    reader: &Reader<'_, F>,
    tok: Tok,
    toks: &'t [Tok],
) -> Result<(Tree, &'t [Tok]), ReadFault>
    requires nests { Nests reader.now.bytes.now reader.now.most (F.pre reader.now.nested)
        (F.post reader.now.nested) }
    requires fewer { length toks.now < reader.now.most }
    requires start { primary_start tok.kind ≡ Some PrimaryStart.Spawn }
    ensures spelled { IfOk result (λ r. Reads reader.now.bytes.now Phrase.Primary (tok ∷ toks.now)
        (tree_of r.0) r.1.now) }
    ensures eats { IfOk result (λ r. EatsRule (phrase Phrase.Primary) (tok ∷ toks.now) r.1.now) }
    ensures sticks { (left : ℕ) → IsErrOf result (read_fault.Stuck left) →
        SticksRule (phrase Phrase.Primary) (tok ∷ toks.now) left }
    ensures shorter { IfOk result (λ r. length r.1.now ≤ length toks.now) }
{
    let (_, behind) = expect(toks, Fixed::Open)?;
    let (operand, behind) = reader.inner(Phrase::Expr, behind)?;
    match take(behind, Fixed::Close) {
        Some((_, rest)) => Ok((forms::spawn(reader.alloc, tok.place, operand)?, rest)),
        None => {
            drop(operand);
            Err(ReadFault::Stuck(behind.len()))
        }
    }
}

/// `map{..}`
#[tactic(auto, using(crate::proofs::RuleSets::of_mapping))]
pub fn mapping<'t, F: Fn(Global, &[u8], Phrase, &[Tok]) -> Result<(Tree, usize), ReadFault>>(
    reader: &Reader<'_, F>,
    tok: Tok,
    toks: &'t [Tok],
) -> Result<(Tree, &'t [Tok]), ReadFault>
    requires nests { Nests reader.now.bytes.now reader.now.most (F.pre reader.now.nested)
        (F.post reader.now.nested) }
    requires fewer { length toks.now < reader.now.most }
    requires start { primary_start tok.kind ≡ Some PrimaryStart.Map }
    ensures spelled { IfOk result (λ r. Reads reader.now.bytes.now Phrase.Primary (tok ∷ toks.now)
        (tree_of r.0) r.1.now) }
    ensures eats { IfOk result (λ r. EatsRule (phrase Phrase.Primary) (tok ∷ toks.now) r.1.now) }
    ensures sticks { (left : ℕ) → IsErrOf result (read_fault.Stuck left) →
        SticksRule (phrase Phrase.Primary) (tok ∷ toks.now) left }
    ensures shorter { IfOk result (λ r. length r.1.now ≤ length toks.now) }
{
    let (_, behind) = expect(toks, Fixed::Open)?;
    let (parts, rest) = pairs_until(reader, behind)?;
    Ok((literals::mapping(reader.alloc, tok.place, parts)?, rest))
}

/// The keys of a map with their values, up to Close.
#[tactic(auto, using(crate::proofs::RuleSets::of_pairs_until))]
fn pairs_until<'t, F: Fn(Global, &[u8], Phrase, &[Tok]) -> Result<(Tree, usize), ReadFault>>(
    reader: &Reader<'_, F>,
    toks: &'t [Tok],
) -> Result<(Pairs, &'t [Tok]), ReadFault>
    requires nests { Nests reader.now.bytes.now reader.now.most (F.pre reader.now.nested)
        (F.post reader.now.nested) }
    requires fewer { length toks.now < reader.now.most }
    ensures spelled { IfOk result
        (λ r. PairsUntil reader.now.bytes.now toks.now (map pair_of r.0) r.1.now) }
    ensures eats { IfOk result (λ r. EatsRule pairs_until toks.now r.1.now) }
    ensures sticks { (left : ℕ) → IsErrOf result (read_fault.Stuck left) →
        SticksRule pairs_until toks.now left }
    ensures shorter { IfOk result (λ r. length r.1.now < length toks.now) }
{
    match take(toks, Fixed::Close) {
        Some((_, rest)) => Ok((Pairs::new(reader.alloc), rest)),
        None => pairs(reader, toks),
    }
}

/// One key or more, up to Close.
#[tactic(auto, using(crate::proofs::RuleSets::of_pairs))]
fn pairs<'t, F: Fn(Global, &[u8], Phrase, &[Tok]) -> Result<(Tree, usize), ReadFault>>(
    reader: &Reader<'_, F>,
    toks: &'t [Tok],
) -> Result<(Pairs, &'t [Tok]), ReadFault>
    requires nests { Nests reader.now.bytes.now reader.now.most (F.pre reader.now.nested)
        (F.post reader.now.nested) }
    requires fewer { length toks.now < reader.now.most }
    requires some { ahead toks.now ≢ Some (kind_of Fixed.Close) }
    ensures spelled { IfOk result
        (λ r. PairsUntil reader.now.bytes.now toks.now (map pair_of r.0) r.1.now) }
    ensures eats { IfOk result (λ r. EatsRule pairs_until toks.now r.1.now) }
    ensures sticks { (left : ℕ) → IsErrOf result (read_fault.Stuck left) →
        SticksRule pairs_until toks.now left }
    ensures shorter { IfOk result (λ r. length r.1.now < length toks.now) }
{
    let ((key, value), after) = pair(reader, toks)?;
    let mut parts = Pairs::new(reader.alloc);
    parts.push(key, value)?;
    let mut rest = after;
    'more: while let Some((_, behind)) = take(rest, Fixed::Sep) {
        let ((key, value), left) = pair(reader, behind)?;
        parts.push(key, value)?;
        rest = left;
    }
    match take(rest, Fixed::Close) {
        Some((_, rest)) => Ok((parts, rest)),
        None => Err(ReadFault::Stuck(rest.len())),
    }
}

/// `K => V`
#[tactic(auto, using(crate::proofs::RuleSets::of_pair))]
fn pair<'t, F: Fn(Global, &[u8], Phrase, &[Tok]) -> Result<(Tree, usize), ReadFault>>(
    reader: &Reader<'_, F>,
    toks: &'t [Tok],
) -> Result<((Tree, Tree), &'t [Tok]), ReadFault>
    requires nests { Nests reader.now.bytes.now reader.now.most (F.pre reader.now.nested)
        (F.post reader.now.nested) }
    requires fewer { length toks.now < reader.now.most }
    ensures spelled { IfOk result
        (λ r. IsPair reader.now.bytes.now toks.now (tree_of r.0.0, tree_of r.0.1) r.1.now) }
    ensures eats { IfOk result (λ r. EatsRule pair toks.now r.1.now) }
    ensures sticks { (left : ℕ) → IsErrOf result (read_fault.Stuck left) →
        SticksRule pair toks.now left }
    ensures shorter { IfOk result (λ r. length r.1.now < length toks.now) }
{
    let (key, behind) = reader.inner(Phrase::Expr, toks)?;
    match take(behind, Fixed::FatArrow) {
        Some((_, behind)) => match reader.inner(Phrase::Expr, behind) {
            Ok((value, rest)) => Ok(((key, value), rest)),
            Err(fault) => {
                drop(key);
                Err(fault)
            }
        },
        None => {
            drop(key);
            Err(ReadFault::Stuck(behind.len()))
        }
    }
}
