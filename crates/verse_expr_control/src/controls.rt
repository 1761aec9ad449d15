//! What begins with `set` or `return`.

ghost use Rattle.std.specs.Prelude.{◌≡◌, ◌<◌, ◌≤◌, ◌∷◌, ℕ, Some, IfOk, length};
ghost use Rattle.std.specs.Result.{IsErrOf};
ghost use Rattle.verse_tree.specs.View.{tree_of};
ghost use Rattle.verse_grammar.specs.Exprs.{Control};
ghost use Rattle.verse_grammar.specs.Symbols.{set_rest, assign, return_value, first_is};
ghost use Rattle.verse_grammar.specs.Starts.{assign_at, begins_expr, stmt_start};
ghost use Rattle.verse_grammar.specs.Reading.{Eats, EatsRule, Sticks, SticksRule};
ghost use Rattle.verse_grammar.specs.declared.phrases.Phrase.{Phrase};
ghost use Rattle.verse_grammar.specs.declared.starts.StmtStart.{StmtStart};
ghost use Rattle.verse_expr_control.specs.Writing.{Writes, write_symbols};
ghost use Rattle.verse_expr_reader.specs.Nests.{Nests};
ghost use Rattle.verse_expr_reader.specs.declared.steps.ReadFault.TheVariants as read_fault;

use std::alloc::Global;
use verse_expr_reader::nesting::Reader;
use verse_expr_reader::steps::{ReadFault, next};
use verse_grammar::phrases::Phrase;
use verse_grammar::starts::{StmtStart, assign_at, begins_expr, stmt_start};
use verse_layout::toks::Tok;
use verse_tree::exprs::Assign;
use verse_tree_nodes::statements;
use verse_tree_nodes::trees::Tree;

/// What is behind `set`.
#[tactic(auto, using(crate::proofs::RuleSets::of_set))]
pub fn set<'t, F: Fn(Global, &[u8], Phrase, &[Tok]) -> Result<(Tree, usize), ReadFault>>(
    reader: &Reader<'_, F>,
    tok: Tok,
    toks: &'t [Tok],
) -> Result<(Tree, &'t [Tok]), ReadFault>
    requires nests { Nests reader.now.bytes.now reader.now.most (F.pre reader.now.nested)
        (F.post reader.now.nested) }
    requires fewer { length toks.now < reader.now.most }
    requires start { stmt_start tok.kind ≡ Some StmtStart.Set }
    ensures spelled { IfOk result
        (λ r. Control reader.now.bytes.now (tok ∷ toks.now) (tree_of r.0) r.1.now) }
    ensures eats { IfOk result (λ r. EatsRule set_rest toks.now r.1.now) }
    ensures sticks { (left : ℕ) → IsErrOf result (read_fault.Stuck left) →
        SticksRule set_rest toks.now left }
    ensures shorter { IfOk result (λ r. length r.1.now < length toks.now) }
{
    let (target, rest) = reader.inner(Phrase::Postfix, toks)?;
    let ((mode, value), rest) = written(reader, rest)?;
    Ok((
        statements::assignment(reader.alloc, tok.place, mode, target, value)?,
        rest,
    ))
}

/// How a `set` writes, and the value.
#[tactic(auto, using(crate::proofs::RuleSets::of_written))]
fn written<'t, F: Fn(Global, &[u8], Phrase, &[Tok]) -> Result<(Tree, usize), ReadFault>>(
    reader: &Reader<'_, F>,
    toks: &'t [Tok],
) -> Result<((Assign, Tree), &'t [Tok]), ReadFault>
    requires nests { Nests reader.now.bytes.now reader.now.most (F.pre reader.now.nested)
        (F.post reader.now.nested) }
    requires fewer { length toks.now < reader.now.most }
    ensures spelled { IfOk result
        (λ r. Writes reader.now.bytes.now toks.now r.0.0 (tree_of r.0.1) r.1.now) }
    ensures eats { IfOk result (λ r. Eats write_symbols toks.now r.1.now) }
    ensures sticks { (left : ℕ) → IsErrOf result (read_fault.Stuck left) →
        Sticks write_symbols toks.now left }
    ensures shorter { IfOk result (λ r. length r.1.now < length toks.now) }
{
    let ((_, mode), rest) = assign(toks)?;
    let (value, rest) = reader.inner(Phrase::Expr, rest)?;
    Ok(((mode, value), rest))
}

/// What is behind `return`.
#[tactic(auto, using(crate::proofs::RuleSets::of_returned))]
pub fn returned<'t, F: Fn(Global, &[u8], Phrase, &[Tok]) -> Result<(Tree, usize), ReadFault>>(
    reader: &Reader<'_, F>,
    tok: Tok,
    toks: &'t [Tok],
) -> Result<(Tree, &'t [Tok]), ReadFault>
    requires nests { Nests reader.now.bytes.now reader.now.most (F.pre reader.now.nested)
        (F.post reader.now.nested) }
    requires fewer { length toks.now < reader.now.most }
    requires start { stmt_start tok.kind ≡ Some StmtStart.Return }
    ensures spelled { IfOk result
        (λ r. Control reader.now.bytes.now (tok ∷ toks.now) (tree_of r.0) r.1.now) }
    ensures eats { IfOk result (λ r. EatsRule return_value toks.now r.1.now) }
    ensures sticks { (left : ℕ) → IsErrOf result (read_fault.Stuck left) →
        SticksRule return_value toks.now left }
    ensures shorter { IfOk result (λ r. length r.1.now ≤ length toks.now) }
{
    if begins(toks) {
        let (value, rest) = reader.inner(Phrase::Expr, toks)?;
        return Ok((statements::returned(reader.alloc, tok.place, value)?, rest));
    }
    Ok((statements::returned_unit(reader.alloc, tok.place)?, toks))
}

/// How a `set` writes.
#[tactic(auto, using(crate::proofs::RuleSets::of_assign))]
fn assign<'t>(toks: &'t [Tok]) -> Result<((Tok, Assign), &'t [Tok]), ReadFault>
    ensures found { IfOk result (λ r. toks.now ≡ r.0.0 ∷ r.1.now) }
    ensures mode { IfOk result (λ r. assign_at r.0.0.kind ≡ Some r.0.1) }
    ensures eats { IfOk result (λ r. EatsRule assign toks.now r.1.now) }
    ensures sticks { (left : ℕ) → IsErrOf result (read_fault.Stuck left) →
        SticksRule assign toks.now left }
    ensures shorter { IfOk result (λ r. length r.1.now < length toks.now) }
{
    let Some((tok, rest)) = next(toks) else {
        return Err(ReadFault::Stuck(0));
    };
    match assign_at(tok.kind) {
        Some(mode) => Ok(((tok, mode), rest)),
        None => Err(ReadFault::Stuck(toks.len())),
    }
}

/// Whether an expression begins here.
fn begins(toks: &[Tok]) -> bool
    ensures { result ≡ first_is begins_expr toks.now }
{
    match next(toks) {
        Some((tok, _)) => begins_expr(tok.kind),
        None => false,
    }
}
