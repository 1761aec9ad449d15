//! What stands in the brackets of a `for`: generators and clauses.

ghost use Rattle.std.specs.Prelude.{◌≡◌, ◌≢◌, ◌<◌, ◌≤◌, ◌∷◌, ℕ, Some, IfOk, length};
ghost use Rattle.std.specs.Result.{IsErrOf};
ghost use Rattle.verse_lex.specs.declared.tokens.Mark.TheVariants as m;
ghost use Rattle.verse_lex.specs.declared.tokens.Word.TheVariants as w;
ghost use Rattle.verse_tree.specs.View.{tree_of};
ghost use Rattle.verse_grammar.specs.Exprs.{Reads};
ghost use Rattle.verse_grammar.specs.Toks.{ahead, mark, name, word};
ghost use Rattle.verse_grammar.specs.Symbols.{phrase, generator_rest, entries_rest, clause_value};
ghost use Rattle.verse_grammar.specs.Symbols.{range_rest};
ghost use Rattle.verse_grammar.specs.Starts.{stmt_start};
ghost use Rattle.verse_grammar.specs.Reading.{Eats, EatsRule, Sticks, SticksRule};
ghost use Rattle.verse_grammar.specs.declared.phrases.Phrase.{Phrase};
ghost use Rattle.verse_grammar.specs.declared.starts.StmtStart.{StmtStart};
ghost use Rattle.verse_expr_generators.specs.Behind.{ExprBehind, EndsRange, end_symbols};
ghost use Rattle.verse_expr_reader.specs.Nests.{Nests};
ghost use Rattle.verse_expr_reader.specs.declared.steps.ReadFault.TheVariants as read_fault;

use std::alloc::Global;
use verse_expr_control::choices::{expr, if_form};
use verse_expr_control::controls::{returned, set};
use verse_expr_precedence::levels::{chain_tail, comparison_tail};
use verse_expr_reader::nesting::Reader;
use verse_expr_reader::spans::name_at;
use verse_expr_reader::steps::{ReadFault, expect, next, take};
use verse_grammar::phrases::Phrase;
use verse_grammar::starts::{Fixed, StmtStart, stmt_start};
use verse_layout::toks::Tok;
use verse_tree_nodes::trees::Tree;
use verse_tree_nodes::{forms, statements};

/// The first thing in the brackets of a `for`.
#[tactic(auto, using(crate::proofs::RuleSets::of_generator))]
pub fn generator<'t, F: Fn(Global, &[u8], Phrase, &[Tok]) -> Result<(Tree, usize), ReadFault>>(
    reader: &Reader<'_, F>,
    toks: &'t [Tok],
) -> Result<(Tree, &'t [Tok]), ReadFault>
    requires nests { Nests reader.now.bytes.now reader.now.most (F.pre reader.now.nested)
        (F.post reader.now.nested) }
    requires within { length toks.now ≤ reader.now.most }
    ensures spelled { IfOk result
        (λ r. Reads reader.now.bytes.now Phrase.Generator toks.now (tree_of r.0) r.1.now) }
    ensures eats { IfOk result (λ r. EatsRule (phrase Phrase.Generator) toks.now r.1.now) }
    ensures sticks { (left : ℕ) → IsErrOf result (read_fault.Stuck left) →
        SticksRule (phrase Phrase.Generator) toks.now left }
    ensures shorter { IfOk result (λ r. length r.1.now < length toks.now) }
{
    let (tok, rest) = expect(toks, Fixed::Name)?;
    generated(reader, tok, rest)
}

/// What is behind the first name of a generator.
#[tactic(auto, using(crate::proofs::RuleSets::of_generated))]
fn generated<'t, F: Fn(Global, &[u8], Phrase, &[Tok]) -> Result<(Tree, usize), ReadFault>>(
    reader: &Reader<'_, F>,
    tok: Tok,
    toks: &'t [Tok],
) -> Result<(Tree, &'t [Tok]), ReadFault>
    requires nests { Nests reader.now.bytes.now reader.now.most (F.pre reader.now.nested)
        (F.post reader.now.nested) }
    requires fewer { length toks.now < reader.now.most }
    requires start { tok.kind ≡ name }
    ensures spelled { IfOk result (λ r. Reads reader.now.bytes.now Phrase.Generator (tok ∷ toks.now)
        (tree_of r.0) r.1.now) }
    ensures eats { IfOk result (λ r. EatsRule generator_rest toks.now r.1.now) }
    ensures sticks { (left : ℕ) → IsErrOf result (read_fault.Stuck left) →
        SticksRule generator_rest toks.now left }
    ensures shorter { IfOk result (λ r. length r.1.now < length toks.now) }
{
    if let Some((colon, rest)) = take(toks, Fixed::Colon) {
        return elements(reader, tok, colon, rest);
    }
    if let Some((arrow, rest)) = take(toks, Fixed::Arrow) {
        return entries(reader, tok, arrow, rest);
    }
    match take(toks, Fixed::Define) {
        Some((define, rest)) => range(reader, tok, define, rest),
        None => Err(ReadFault::Stuck(toks.len())),
    }
}

/// What is behind `X :`.
#[tactic(auto, using(verse_grammar::specs::Exprs::elements))]
fn elements<'t, F: Fn(Global, &[u8], Phrase, &[Tok]) -> Result<(Tree, usize), ReadFault>>(
    reader: &Reader<'_, F>,
    tok: Tok,
    colon: Tok,
    toks: &'t [Tok],
) -> Result<(Tree, &'t [Tok]), ReadFault>
    requires nests { Nests reader.now.bytes.now reader.now.most (F.pre reader.now.nested)
        (F.post reader.now.nested) }
    requires fewer { length toks.now < reader.now.most }
    requires start { tok.kind ≡ name }
    requires colon { colon.kind ≡ mark m.Colon }
    ensures spelled { IfOk result
        (λ r. Reads reader.now.bytes.now Phrase.Generator (tok ∷ colon ∷ toks.now)
        (tree_of r.0) r.1.now) }
    ensures eats { IfOk result (λ r. EatsRule (phrase Phrase.Sum) toks.now r.1.now) }
    ensures sticks { (left : ℕ) → IsErrOf result (read_fault.Stuck left) →
        SticksRule (phrase Phrase.Sum) toks.now left }
    ensures shorter { IfOk result (λ r. length r.1.now < length toks.now) }
{
    let name = name_at(reader.alloc, reader.bytes, tok)?;
    let (domain, rest) = reader.inner(Phrase::Sum, toks)?;
    Ok((
        forms::elements(reader.alloc, tok.place, name, domain)?,
        rest,
    ))
}

/// What is behind `K ->`.
#[tactic(auto, using(verse_grammar::proofs::StickingParts::sticks_entries_rest_1))]
fn entries<'t, F: Fn(Global, &[u8], Phrase, &[Tok]) -> Result<(Tree, usize), ReadFault>>(
    reader: &Reader<'_, F>,
    tok: Tok,
    arrow: Tok,
    toks: &'t [Tok],
) -> Result<(Tree, &'t [Tok]), ReadFault>
    requires nests { Nests reader.now.bytes.now reader.now.most (F.pre reader.now.nested)
        (F.post reader.now.nested) }
    requires fewer { length toks.now < reader.now.most }
    requires start { tok.kind ≡ name }
    requires arrow { arrow.kind ≡ mark m.Arrow }
    ensures spelled { IfOk result
        (λ r. Reads reader.now.bytes.now Phrase.Generator (tok ∷ arrow ∷ toks.now)
        (tree_of r.0) r.1.now) }
    ensures eats { IfOk result (λ r. EatsRule entries_rest toks.now r.1.now) }
    ensures sticks { (left : ℕ) → IsErrOf result (read_fault.Stuck left) →
        SticksRule entries_rest toks.now left }
    ensures shorter { IfOk result (λ r. length r.1.now < length toks.now) }
{
    let (second, rest) = expect(toks, Fixed::Name)?;
    entries_of(reader, tok, arrow, second, rest)
}

/// What is behind `K -> V`.
#[tactic(auto, using(crate::proofs::RuleSets::of_entries_of))]
fn entries_of<'t, F: Fn(Global, &[u8], Phrase, &[Tok]) -> Result<(Tree, usize), ReadFault>>(
    reader: &Reader<'_, F>,
    tok: Tok,
    arrow: Tok,
    second: Tok,
    toks: &'t [Tok],
) -> Result<(Tree, &'t [Tok]), ReadFault>
    requires nests { Nests reader.now.bytes.now reader.now.most (F.pre reader.now.nested)
        (F.post reader.now.nested) }
    requires fewer { length toks.now < reader.now.most }
    requires start { tok.kind ≡ name }
    requires arrow { arrow.kind ≡ mark m.Arrow }
    requires second { second.kind ≡ name }
    ensures spelled { IfOk result
        (λ r. Reads reader.now.bytes.now Phrase.Generator (tok ∷ arrow ∷ second ∷ toks.now)
        (tree_of r.0) r.1.now) }
    ensures eats { IfOk result (λ r. EatsRule entries_rest (second ∷ toks.now) r.1.now) }
    ensures sticks { (left : ℕ) → IsErrOf result (read_fault.Stuck left) →
        SticksRule entries_rest (second ∷ toks.now) left }
    ensures shorter { IfOk result (λ r. length r.1.now < length toks.now) }
{
    let (_, rest) = expect(toks, Fixed::Colon)?;
    let key = name_at(reader.alloc, reader.bytes, tok)?;
    let value = name_at(reader.alloc, reader.bytes, second)?;
    let (domain, rest) = reader.inner(Phrase::Sum, rest)?;
    Ok((
        forms::entries(reader.alloc, tok.place, key, value, domain)?,
        rest,
    ))
}

/// What is behind `I :=` in a generator.
#[tactic(auto, using(crate::proofs::RuleSets::of_range))]
fn range<'t, F: Fn(Global, &[u8], Phrase, &[Tok]) -> Result<(Tree, usize), ReadFault>>(
    reader: &Reader<'_, F>,
    tok: Tok,
    define: Tok,
    toks: &'t [Tok],
) -> Result<(Tree, &'t [Tok]), ReadFault>
    requires nests { Nests reader.now.bytes.now reader.now.most (F.pre reader.now.nested)
        (F.post reader.now.nested) }
    requires fewer { length toks.now < reader.now.most }
    requires start { tok.kind ≡ name }
    requires define { define.kind ≡ mark m.Define }
    ensures spelled { IfOk result
        (λ r. Reads reader.now.bytes.now Phrase.Generator (tok ∷ define ∷ toks.now)
        (tree_of r.0) r.1.now) }
    ensures eats { IfOk result (λ r. EatsRule generator_rest (define ∷ toks.now) r.1.now) }
    ensures sticks { (left : ℕ) → IsErrOf result (read_fault.Stuck left) →
        SticksRule generator_rest (define ∷ toks.now) left }
    ensures shorter { IfOk result (λ r. length r.1.now < length toks.now) }
{
    let name = name_at(reader.alloc, reader.bytes, tok)?;
    let (low, rest) = reader.inner(Phrase::Sum, toks)?;
    let (high, rest) = highest(reader, rest)?;
    Ok((
        forms::range(reader.alloc, tok.place, name, low, high)?,
        rest,
    ))
}

/// `..`, and the end of a range.
#[tactic(auto, using(crate::proofs::RuleSets::of_highest))]
fn highest<'t, F: Fn(Global, &[u8], Phrase, &[Tok]) -> Result<(Tree, usize), ReadFault>>(
    reader: &Reader<'_, F>,
    toks: &'t [Tok],
) -> Result<(Tree, &'t [Tok]), ReadFault>
    requires nests { Nests reader.now.bytes.now reader.now.most (F.pre reader.now.nested)
        (F.post reader.now.nested) }
    requires fewer { length toks.now < reader.now.most }
    ensures spelled { IfOk result
        (λ r. EndsRange reader.now.bytes.now toks.now (tree_of r.0) r.1.now) }
    ensures eats { IfOk result (λ r. Eats end_symbols toks.now r.1.now) }
    ensures sticks { (left : ℕ) → IsErrOf result (read_fault.Stuck left) →
        Sticks end_symbols toks.now left }
    ensures shorter { IfOk result (λ r. length r.1.now < length toks.now) }
{
    let (_, rest) = expect(toks, Fixed::DotDot)?;
    reader.inner(Phrase::Sum, rest)
}

/// What stands behind a generator.
#[tactic(auto, using(crate::proofs::RuleSets::of_clause))]
pub fn clause<'t, F: Fn(Global, &[u8], Phrase, &[Tok]) -> Result<(Tree, usize), ReadFault>>(
    reader: &Reader<'_, F>,
    toks: &'t [Tok],
) -> Result<(Tree, &'t [Tok]), ReadFault>
    requires nests { Nests reader.now.bytes.now reader.now.most (F.pre reader.now.nested)
        (F.post reader.now.nested) }
    requires within { length toks.now ≤ reader.now.most }
    ensures spelled { IfOk result
        (λ r. Reads reader.now.bytes.now Phrase.Clause toks.now (tree_of r.0) r.1.now) }
    ensures eats { IfOk result (λ r. EatsRule (phrase Phrase.Clause) toks.now r.1.now) }
    ensures sticks { (left : ℕ) → IsErrOf result (read_fault.Stuck left) →
        SticksRule (phrase Phrase.Clause) toks.now left }
    ensures shorter { IfOk result (λ r. length r.1.now < length toks.now) }
{
    let Some((tok, rest)) = next(toks) else {
        return expr(reader, toks);
    };
    match stmt_start(tok.kind) {
        Some(StmtStart::Name) => named_clause(reader, tok, rest, toks),
        Some(StmtStart::Var) => Err(ReadFault::Stuck(toks.len())),
        Some(StmtStart::Set) => set(reader, tok, rest),
        Some(StmtStart::Return) => returned(reader, tok, rest),
        Some(StmtStart::Break) => Ok((statements::break_form(reader.alloc, tok.place)?, rest)),
        None => expr(reader, toks),
    }
}

/// A clause that begins with a name: a generator, a definition, or an expression.
#[tactic(auto, using(crate::proofs::RuleSets::of_named_clause))]
fn named_clause<'t, F: Fn(Global, &[u8], Phrase, &[Tok]) -> Result<(Tree, usize), ReadFault>>(
    reader: &Reader<'_, F>,
    tok: Tok,
    toks: &'t [Tok],
    all: &'t [Tok],
) -> Result<(Tree, &'t [Tok]), ReadFault>
    requires nests { Nests reader.now.bytes.now reader.now.most (F.pre reader.now.nested)
        (F.post reader.now.nested) }
    requires fewer { length toks.now < reader.now.most }
    requires start { stmt_start tok.kind ≡ Some StmtStart.Name }
    requires all { all.now ≡ tok ∷ toks.now }
    ensures spelled { IfOk result
        (λ r. Reads reader.now.bytes.now Phrase.Clause (tok ∷ toks.now) (tree_of r.0) r.1.now) }
    ensures eats { IfOk result (λ r. EatsRule (phrase Phrase.Clause) (tok ∷ toks.now) r.1.now) }
    ensures sticks { (left : ℕ) → IsErrOf result (read_fault.Stuck left) →
        SticksRule (phrase Phrase.Clause) (tok ∷ toks.now) left }
    ensures shorter { IfOk result (λ r. length r.1.now < length all.now) }
{
    if let Some((define, rest)) = take(toks, Fixed::Define) {
        return defined_clause(reader, tok, define, rest);
    }
    if let Some((colon, rest)) = take(toks, Fixed::Colon) {
        return elements(reader, tok, colon, rest);
    }
    match take(toks, Fixed::Arrow) {
        Some((arrow, rest)) => entries(reader, tok, arrow, rest),
        None => expr(reader, all),
    }
}

/// What is behind `X :=` in a clause.
#[tactic(auto, using(crate::proofs::RuleSets::of_defined_clause))]
fn defined_clause<'t, F: Fn(Global, &[u8], Phrase, &[Tok]) -> Result<(Tree, usize), ReadFault>>(
    reader: &Reader<'_, F>,
    tok: Tok,
    define: Tok,
    toks: &'t [Tok],
) -> Result<(Tree, &'t [Tok]), ReadFault>
    requires nests { Nests reader.now.bytes.now reader.now.most (F.pre reader.now.nested)
        (F.post reader.now.nested) }
    requires fewer { length toks.now < reader.now.most }
    requires start { tok.kind ≡ name }
    requires define { define.kind ≡ mark m.Define }
    ensures spelled { IfOk result
        (λ r. Reads reader.now.bytes.now Phrase.Clause (tok ∷ define ∷ toks.now)
        (tree_of r.0) r.1.now) }
    ensures eats { IfOk result (λ r. EatsRule clause_value toks.now r.1.now) }
    ensures sticks { (left : ℕ) → IsErrOf result (read_fault.Stuck left) →
        SticksRule clause_value toks.now left }
    ensures shorter { IfOk result (λ r. length r.1.now < length toks.now) }
{
    if let Some((word, rest)) = take(toks, Fixed::If) {
        let name = name_at(reader.alloc, reader.bytes, tok)?;
        let (value, rest) = if_form(reader, word, rest)?;
        return Ok((
            statements::definition(reader.alloc, tok.place, name, value)?,
            rest,
        ));
    }
    match take(toks, Fixed::Not) {
        Some(_) => denied_clause(reader, tok, define, toks),
        None => sum_clause(reader, tok, define, toks),
    }
}

/// The value of a definition that begins with `not`.
#[tactic(auto, using(crate::proofs::RuleSets::of_denied_clause))]
fn denied_clause<'t, F: Fn(Global, &[u8], Phrase, &[Tok]) -> Result<(Tree, usize), ReadFault>>(
    reader: &Reader<'_, F>,
    tok: Tok,
    define: Tok,
    toks: &'t [Tok],
) -> Result<(Tree, &'t [Tok]), ReadFault>
    requires nests { Nests reader.now.bytes.now reader.now.most (F.pre reader.now.nested)
        (F.post reader.now.nested) }
    requires fewer { length toks.now < reader.now.most }
    requires start { tok.kind ≡ name }
    requires define { define.kind ≡ mark m.Define }
    requires word { ahead toks.now ≡ Some (word w.Not) }
    ensures spelled { IfOk result
        (λ r. Reads reader.now.bytes.now Phrase.Clause (tok ∷ define ∷ toks.now)
        (tree_of r.0) r.1.now) }
    ensures eats { IfOk result (λ r. EatsRule clause_value toks.now r.1.now) }
    ensures sticks { (left : ℕ) → IsErrOf result (read_fault.Stuck left) →
        SticksRule clause_value toks.now left }
    ensures shorter { IfOk result (λ r. length r.1.now < length toks.now) }
{
    let name = name_at(reader.alloc, reader.bytes, tok)?;
    let (value, rest) = reader.inner(Phrase::Or, toks)?;
    Ok((
        statements::definition(reader.alloc, tok.place, name, value)?,
        rest,
    ))
}

/// What begins with a sum behind `X :=`: a range, or the value of a definition.
#[tactic(auto, using(crate::proofs::RuleSets::of_sum_clause))]
fn sum_clause<'t, F: Fn(Global, &[u8], Phrase, &[Tok]) -> Result<(Tree, usize), ReadFault>>(
    reader: &Reader<'_, F>,
    tok: Tok,
    define: Tok,
    toks: &'t [Tok],
) -> Result<(Tree, &'t [Tok]), ReadFault>
    requires nests { Nests reader.now.bytes.now reader.now.most (F.pre reader.now.nested)
        (F.post reader.now.nested) }
    requires fewer { length toks.now < reader.now.most }
    requires start { tok.kind ≡ name }
    requires define { define.kind ≡ mark m.Define }
    requires no_if { ahead toks.now ≢ Some (word w.If) }
    requires no_not { ahead toks.now ≢ Some (word w.Not) }
    ensures spelled { IfOk result
        (λ r. Reads reader.now.bytes.now Phrase.Clause (tok ∷ define ∷ toks.now)
        (tree_of r.0) r.1.now) }
    ensures eats { IfOk result (λ r. EatsRule clause_value toks.now r.1.now) }
    ensures sticks { (left : ℕ) → IsErrOf result (read_fault.Stuck left) →
        SticksRule clause_value toks.now left }
    ensures shorter { IfOk result (λ r. length r.1.now < length toks.now) }
{
    let name = name_at(reader.alloc, reader.bytes, tok)?;
    let (low, rest) = reader.inner(Phrase::Sum, toks)?;
    match take(rest, Fixed::DotDot) {
        Some((_, rest)) => {
            let (high, rest) = reader.inner(Phrase::Sum, rest)?;
            Ok((
                forms::range(reader.alloc, tok.place, name, low, high)?,
                rest,
            ))
        }
        None => {
            let (value, rest) = behind_sum(reader, low, rest)?;
            Ok((
                statements::definition(reader.alloc, tok.place, name, value)?,
                rest,
            ))
        }
    }
}

/// The rest of an expression behind the sum with which it begins.
#[tactic(auto, using(crate::proofs::RuleSets::of_behind_sum))]
fn behind_sum<'t, F: Fn(Global, &[u8], Phrase, &[Tok]) -> Result<(Tree, usize), ReadFault>>(
    reader: &Reader<'_, F>,
    left: Tree,
    toks: &'t [Tok],
) -> Result<(Tree, &'t [Tok]), ReadFault>
    requires nests { Nests reader.now.bytes.now reader.now.most (F.pre reader.now.nested)
        (F.post reader.now.nested) }
    requires fewer { length toks.now < reader.now.most }
    requires other { ahead toks.now ≢ Some (mark m.DotDot) }
    ensures spelled { IfOk result
        (λ r. ExprBehind reader.now.bytes.now (tree_of left) toks.now (tree_of r.0) r.1.now) }
    ensures eats { IfOk result (λ r. EatsRule range_rest toks.now r.1.now) }
    ensures sticks { (left : ℕ) → IsErrOf result (read_fault.Stuck left) →
        SticksRule range_rest toks.now left }
    ensures shorter { IfOk result (λ r. length r.1.now ≤ length toks.now) }
{
    let (compared, rest) = comparison_tail(reader, left, toks)?;
    let (joined, rest) = chain_tail(reader, Phrase::And, compared, rest)?;
    chain_tail(reader, Phrase::Or, joined, rest)
}
