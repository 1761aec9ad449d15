//! Blocks, what stands in them, and bodies.

ghost use Rattle.std.specs.Prelude.{◌≡◌, ◌<◌, ◌≤◌, ℕ, IfOk, length};
ghost use Rattle.std.specs.Result.{IsErrOf};
ghost use Rattle.verse_tree.specs.View.{tree_of};
ghost use Rattle.verse_grammar.specs.Exprs.{Reads};
ghost use Rattle.verse_grammar.specs.Symbols.{phrase};
ghost use Rattle.verse_grammar.specs.Reading.{EatsRule, SticksRule};
ghost use Rattle.verse_grammar.specs.declared.phrases.Phrase.{Phrase};
ghost use Rattle.verse_expr_reader.specs.Nests.{Nests};
ghost use Rattle.verse_expr_reader.specs.declared.steps.ReadFault.TheVariants as read_fault;

use crate::statements::stmt;
use std::alloc::Global;
use verse_expr_control::choices::expr;
use verse_expr_reader::nesting::Reader;
use verse_expr_reader::steps::{ReadFault, expect, take};
use verse_grammar::phrases::Phrase;
use verse_grammar::starts::Fixed;
use verse_layout::toks::Tok;
use verse_tree_nodes::statements;
use verse_tree_nodes::trees::Tree;

/// Open, parts and Close.
#[tactic(auto, using(crate::proofs::RuleSets::of_block))]
pub fn block<'t, F: Fn(Global, &[u8], Phrase, &[Tok]) -> Result<(Tree, usize), ReadFault>>(
    reader: &Reader<'_, F>,
    toks: &'t [Tok],
) -> Result<(Tree, &'t [Tok]), ReadFault>
    requires nests { Nests reader.now.bytes.now reader.now.most (F.pre reader.now.nested)
        (F.post reader.now.nested) }
    requires within { length toks.now ≤ reader.now.most }
    ensures spelled { IfOk result
        (λ r. Reads reader.now.bytes.now Phrase.Block toks.now (tree_of r.0) r.1.now) }
    ensures eats { IfOk result (λ r. EatsRule (phrase Phrase.Block) toks.now r.1.now) }
    ensures sticks { (left : ℕ) → IsErrOf result (read_fault.Stuck left) →
        SticksRule (phrase Phrase.Block) toks.now left }
    ensures shorter { IfOk result (λ r. length r.1.now < length toks.now) }
{
    let (tok, rest) = expect(toks, Fixed::Open)?;
    let (parts, rest) = reader.until(Phrase::Part, Fixed::Sep, Fixed::Close, rest)?;
    Ok((statements::block(reader.alloc, tok.place, parts)?, rest))
}

/// `defer` and its block, or a statement.
#[tactic(auto, using(crate::proofs::RuleSets::of_part))]
pub fn part<'t, F: Fn(Global, &[u8], Phrase, &[Tok]) -> Result<(Tree, usize), ReadFault>>(
    reader: &Reader<'_, F>,
    toks: &'t [Tok],
) -> Result<(Tree, &'t [Tok]), ReadFault>
    requires nests { Nests reader.now.bytes.now reader.now.most (F.pre reader.now.nested)
        (F.post reader.now.nested) }
    requires within { length toks.now ≤ reader.now.most }
    ensures spelled { IfOk result
        (λ r. Reads reader.now.bytes.now Phrase.Part toks.now (tree_of r.0) r.1.now) }
    ensures eats { IfOk result (λ r. EatsRule (phrase Phrase.Part) toks.now r.1.now) }
    ensures sticks { (left : ℕ) → IsErrOf result (read_fault.Stuck left) →
        SticksRule (phrase Phrase.Part) toks.now left }
    ensures shorter { IfOk result (λ r. length r.1.now < length toks.now) }
{
    match take(toks, Fixed::Defer) {
        Some((tok, rest)) => {
            let (body, rest) = reader.inner(Phrase::Block, rest)?;
            Ok((statements::defer(reader.alloc, tok.place, body)?, rest))
        }
        None => stmt(reader, toks),
    }
}

/// A block or an expression.
#[tactic(auto, using(crate::proofs::RuleSets::of_body))]
pub fn body<'t, F: Fn(Global, &[u8], Phrase, &[Tok]) -> Result<(Tree, usize), ReadFault>>(
    reader: &Reader<'_, F>,
    toks: &'t [Tok],
) -> Result<(Tree, &'t [Tok]), ReadFault>
    requires nests { Nests reader.now.bytes.now reader.now.most (F.pre reader.now.nested)
        (F.post reader.now.nested) }
    requires within { length toks.now ≤ reader.now.most }
    ensures spelled { IfOk result
        (λ r. Reads reader.now.bytes.now Phrase.Body toks.now (tree_of r.0) r.1.now) }
    ensures eats { IfOk result (λ r. EatsRule (phrase Phrase.Body) toks.now r.1.now) }
    ensures sticks { (left : ℕ) → IsErrOf result (read_fault.Stuck left) →
        SticksRule (phrase Phrase.Body) toks.now left }
    ensures shorter { IfOk result (λ r. length r.1.now < length toks.now) }
{
    match take(toks, Fixed::Open) {
        Some(_) => block(reader, toks),
        None => expr(reader, toks),
    }
}
