//! Statements.

ghost use Rattle.std.specs.Prelude.{◌≡◌, ◌<◌, ◌≤◌, ◌∷◌, ℕ, Some, IfOk, length};
ghost use Rattle.std.specs.Result.{IsErrOf};
ghost use Rattle.verse_lex.specs.declared.tokens.Mark.TheVariants as m;
ghost use Rattle.verse_tree.specs.View.{tree_of, written_of};
ghost use Rattle.verse_grammar.specs.Exprs.{Reads, TypedValue};
ghost use Rattle.verse_grammar.specs.Toks.{mark};
ghost use Rattle.verse_grammar.specs.Symbols.{phrase, typed_value};
ghost use Rattle.verse_grammar.specs.Starts.{stmt_start};
ghost use Rattle.verse_grammar.specs.Reading.{EatsRule, SticksRule};
ghost use Rattle.verse_grammar.specs.declared.phrases.Phrase.{Phrase};
ghost use Rattle.verse_grammar.specs.declared.starts.StmtStart.{StmtStart};
ghost use Rattle.verse_expr_reader.specs.Nests.{Nests};
ghost use Rattle.verse_expr_reader.specs.declared.steps.ReadFault.TheVariants as read_fault;

use std::alloc::Global;
use verse_expr_control::choices::expr;
use verse_expr_control::controls::{returned, set};
use verse_expr_reader::nesting::Reader;
use verse_expr_reader::spans::name_at;
use verse_expr_reader::steps::{ReadFault, expect, next, take};
use verse_expr_reader::types::type_at;
use verse_grammar::phrases::Phrase;
use verse_grammar::starts::{Fixed, StmtStart, stmt_start};
use verse_layout::toks::Tok;
use verse_tree_nodes::statements;
use verse_tree_nodes::trees::Tree;
use verse_tree_nodes::written::Written;

/// A statement.
#[tactic(auto, using(crate::proofs::RuleSets::of_stmt))]
pub fn stmt<'t, F: Fn(Global, &[u8], Phrase, &[Tok]) -> Result<(Tree, usize), ReadFault>>(
    reader: &Reader<'_, F>,
    toks: &'t [Tok],
) -> Result<(Tree, &'t [Tok]), ReadFault>
    requires nests { Nests reader.now.bytes.now reader.now.most (F.pre reader.now.nested)
        (F.post reader.now.nested) }
    requires within { length toks.now ≤ reader.now.most }
    ensures spelled { IfOk result
        (λ r. Reads reader.now.bytes.now Phrase.Stmt toks.now (tree_of r.0) r.1.now) }
    ensures eats { IfOk result (λ r. EatsRule (phrase Phrase.Stmt) toks.now r.1.now) }
    ensures sticks { (left : ℕ) → IsErrOf result (read_fault.Stuck left) →
        SticksRule (phrase Phrase.Stmt) toks.now left }
    ensures shorter { IfOk result (λ r. length r.1.now < length toks.now) }
{
    let Some((tok, rest)) = next(toks) else {
        return expr(reader, toks);
    };
    match stmt_start(tok.kind) {
        Some(StmtStart::Name) => named_stmt(reader, tok, rest, toks),
        Some(StmtStart::Var) => variable(reader, tok, rest),
        Some(StmtStart::Set) => set(reader, tok, rest),
        Some(StmtStart::Return) => returned(reader, tok, rest),
        Some(StmtStart::Break) => Ok((statements::break_form(reader.alloc, tok.place)?, rest)),
        None => expr(reader, toks),
    }
}

/// A statement that begins with a name: a definition, or an expression.
#[tactic(auto, using(crate::proofs::RuleSets::of_named_stmt))]
fn named_stmt<'t, F: Fn(Global, &[u8], Phrase, &[Tok]) -> Result<(Tree, usize), ReadFault>>(
    reader: &Reader<'_, F>,
    tok: Tok,
    toks: &'t [Tok],
    all: &'t [Tok],
) -> Result<(Tree, &'t [Tok]), ReadFault>
    requires nests { Nests reader.now.bytes.now reader.now.most (F.pre reader.now.nested)
        (F.post reader.now.nested) }
    requires fewer { length toks.now < reader.now.most }
    requires start { stmt_start tok.kind ≡ Some StmtStart.Name }
    requires all { all.now ≡ tok ∷ toks.now }
    ensures spelled { IfOk result
        (λ r. Reads reader.now.bytes.now Phrase.Stmt (tok ∷ toks.now) (tree_of r.0) r.1.now) }
    ensures eats { IfOk result (λ r. EatsRule (phrase Phrase.Stmt) (tok ∷ toks.now) r.1.now) }
    ensures sticks { (left : ℕ) → IsErrOf result (read_fault.Stuck left) →
        SticksRule (phrase Phrase.Stmt) (tok ∷ toks.now) left }
    ensures shorter { IfOk result (λ r. length r.1.now < length all.now) }
{
    if let Some((define, rest)) = take(toks, Fixed::Define) {
        return defined(reader, tok, define, rest);
    }
    match take(toks, Fixed::Colon) {
        Some((colon, rest)) => typed(reader, tok, colon, rest),
        None => expr(reader, all),
    }
}

/// The value behind `X :=`.
#[tactic(auto, using(crate::proofs::RuleSets::of_defined))]
fn defined<'t, F: Fn(Global, &[u8], Phrase, &[Tok]) -> Result<(Tree, usize), ReadFault>>(
    reader: &Reader<'_, F>,
    tok: Tok,
    define: Tok,
    toks: &'t [Tok],
) -> Result<(Tree, &'t [Tok]), ReadFault>
    requires nests { Nests reader.now.bytes.now reader.now.most (F.pre reader.now.nested)
        (F.post reader.now.nested) }
    requires fewer { length toks.now < reader.now.most }
    requires start { stmt_start tok.kind ≡ Some StmtStart.Name }
    requires define { define.kind ≡ mark m.Define }
    ensures spelled { IfOk result
        (λ r. Reads reader.now.bytes.now Phrase.Stmt (tok ∷ define ∷ toks.now)
        (tree_of r.0) r.1.now) }
    ensures eats { IfOk result (λ r.
        EatsRule (phrase Phrase.Stmt) (tok ∷ define ∷ toks.now) r.1.now) }
    ensures sticks { (left : ℕ) → IsErrOf result (read_fault.Stuck left) →
        SticksRule (phrase Phrase.Stmt) (tok ∷ define ∷ toks.now) left }
    ensures shorter { IfOk result (λ r. length r.1.now < length toks.now) }
{
    let name = name_at(reader.alloc, reader.bytes, tok)?;
    let (value, rest) = reader.inner(Phrase::Expr, toks)?;
    Ok((
        statements::definition(reader.alloc, tok.place, name, value)?,
        rest,
    ))
}

/// What is behind `X` in `X:t = E`.
#[tactic(auto, using(crate::proofs::RuleSets::of_typed))]
fn typed<'t, F: Fn(Global, &[u8], Phrase, &[Tok]) -> Result<(Tree, usize), ReadFault>>(
    reader: &Reader<'_, F>,
    tok: Tok,
    colon: Tok,
    toks: &'t [Tok],
) -> Result<(Tree, &'t [Tok]), ReadFault>
    requires nests { Nests reader.now.bytes.now reader.now.most (F.pre reader.now.nested)
        (F.post reader.now.nested) }
    requires fewer { length toks.now < reader.now.most }
    requires start { stmt_start tok.kind ≡ Some StmtStart.Name }
    requires colon { colon.kind ≡ mark m.Colon }
    ensures spelled { IfOk result
        (λ r. Reads reader.now.bytes.now Phrase.Stmt (tok ∷ colon ∷ toks.now)
        (tree_of r.0) r.1.now) }
    ensures eats { IfOk result (λ r.
        EatsRule (phrase Phrase.Stmt) (tok ∷ colon ∷ toks.now) r.1.now) }
    ensures sticks { (left : ℕ) → IsErrOf result (read_fault.Stuck left) →
        SticksRule (phrase Phrase.Stmt) (tok ∷ colon ∷ toks.now) left }
    ensures shorter { IfOk result (λ r. length r.1.now < length toks.now) }
{
    let name = name_at(reader.alloc, reader.bytes, tok)?;
    let ((ty, value), rest) = typed_value(reader, colon, toks)?;
    Ok((
        statements::typed(reader.alloc, tok.place, name, ty, value)?,
        rest,
    ))
}

/// What is behind `var`.
#[tactic(auto, using(crate::proofs::RuleSets::of_variable))]
fn variable<'t, F: Fn(Global, &[u8], Phrase, &[Tok]) -> Result<(Tree, usize), ReadFault>>(
    reader: &Reader<'_, F>,
    tok: Tok,
    toks: &'t [Tok],
) -> Result<(Tree, &'t [Tok]), ReadFault>
    requires nests { Nests reader.now.bytes.now reader.now.most (F.pre reader.now.nested)
        (F.post reader.now.nested) }
    requires fewer { length toks.now < reader.now.most }
    requires start { stmt_start tok.kind ≡ Some StmtStart.Var }
    ensures spelled { IfOk result
        (λ r. Reads reader.now.bytes.now Phrase.Stmt (tok ∷ toks.now) (tree_of r.0) r.1.now) }
    ensures eats { IfOk result (λ r. EatsRule (phrase Phrase.Stmt) (tok ∷ toks.now) r.1.now) }
    ensures sticks { (left : ℕ) → IsErrOf result (read_fault.Stuck left) →
        SticksRule (phrase Phrase.Stmt) (tok ∷ toks.now) left }
    ensures shorter { IfOk result (λ r. length r.1.now < length toks.now) }
{
    let (named, rest) = expect(toks, Fixed::Name)?;
    let (colon, rest) = expect(rest, Fixed::Colon)?;
    let name = name_at(reader.alloc, reader.bytes, named)?;
    let ((ty, value), rest) = typed_value(reader, colon, rest)?;
    Ok((
        statements::variable(reader.alloc, tok.place, name, ty, value)?,
        rest,
    ))
}

/// The type and the value behind a colon.
#[tactic(auto, using(crate::proofs::RuleSets::of_typed_value))]
fn typed_value<'t, F: Fn(Global, &[u8], Phrase, &[Tok]) -> Result<(Tree, usize), ReadFault>>(
    reader: &Reader<'_, F>,
    colon: Tok,
    toks: &'t [Tok],
) -> Result<((Written, Tree), &'t [Tok]), ReadFault>
    requires nests { Nests reader.now.bytes.now reader.now.most (F.pre reader.now.nested)
        (F.post reader.now.nested) }
    requires fewer { length toks.now < reader.now.most }
    requires start { colon.kind ≡ mark m.Colon }
    ensures spelled { IfOk result
        (λ r. TypedValue reader.now.bytes.now (colon ∷ toks.now) (written_of r.0.0)
        (tree_of r.0.1) r.1.now) }
    ensures eats { IfOk result (λ r. EatsRule typed_value (colon ∷ toks.now) r.1.now) }
    ensures sticks { (left : ℕ) → IsErrOf result (read_fault.Stuck left) →
        SticksRule typed_value (colon ∷ toks.now) left }
    ensures shorter { IfOk result (λ r. length r.1.now < length toks.now) }
{
    let (ty, rest) = type_at(reader.alloc, reader.bytes, toks)?;
    let (_, rest) = expect(rest, Fixed::Equals)?;
    let (value, rest) = reader.inner(Phrase::Expr, rest)?;
    Ok(((ty, value), rest))
}
