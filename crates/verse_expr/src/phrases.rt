//! The reader of all phrases.

ghost use Rattle.std.specs.Prelude.{◌≡◌, ◌<◌, ◌≤◌, ◌-◌, ℕ, IfOk, length, drop};
ghost use Rattle.std.specs.Result.{IsErrOf};
ghost use Rattle.verse_tree.specs.View.{tree_of};
ghost use Rattle.verse_grammar.specs.Exprs.{Reads};
ghost use Rattle.verse_grammar.specs.Symbols.{phrase};
ghost use Rattle.verse_grammar.specs.Reading.{EatsRule, SticksRule};
ghost use Rattle.verse_grammar.specs.declared.phrases.Phrase.{Phrase};
ghost use Rattle.verse_expr_reader.specs.Nests.{Nests, IsRead};
ghost use Rattle.verse_expr_reader.specs.declared.steps.ReadFault.TheVariants as read_fault;

use std::alloc::Global;
use verse_expr_control::choices;
use verse_expr_generators::generators::{clause, generator};
use verse_expr_patterns::patterns::{arm, pattern};
use verse_expr_precedence::levels::{ands, comparison, negated, negative, ors, product, sum};
use verse_expr_precedence::postfixes::postfix;
use verse_expr_primary::primary::primary;
use verse_expr_reader::nesting::Reader;
use verse_expr_reader::steps::ReadFault;
use verse_expr_statements::blocks;
use verse_expr_statements::statements::stmt;
use verse_grammar::phrases::Phrase;
use verse_layout::toks::Tok;
use verse_tree_nodes::trees::Tree;

/// A phrase of this kind.
fn phrase_of<'t, F: Fn(Global, &[u8], Phrase, &[Tok]) -> Result<(Tree, usize), ReadFault>>(
    reader: &Reader<'_, F>,
    what: Phrase,
    toks: &'t [Tok],
) -> Result<(Tree, &'t [Tok]), ReadFault>
    requires nests { Nests reader.now.bytes.now reader.now.most (F.pre reader.now.nested)
        (F.post reader.now.nested) }
    requires within { length toks.now ≤ reader.now.most }
    ensures spelled { IfOk result
        (λ r. Reads reader.now.bytes.now what toks.now (tree_of r.0) r.1.now) }
    ensures eats { IfOk result (λ r. EatsRule (phrase what) toks.now r.1.now) }
    ensures sticks { (left : ℕ) → IsErrOf result (read_fault.Stuck left) →
        SticksRule (phrase what) toks.now left }
    ensures shorter { IfOk result (λ r. length r.1.now < length toks.now) }
{
    match what {
        Phrase::Block => blocks::block(reader, toks),
        Phrase::Part => blocks::part(reader, toks),
        Phrase::Stmt => stmt(reader, toks),
        Phrase::Body => blocks::body(reader, toks),
        Phrase::Expr => choices::expr(reader, toks),
        Phrase::Or => ors(reader, toks),
        Phrase::And => ands(reader, toks),
        Phrase::Not => negated(reader, toks),
        Phrase::Comparison => comparison(reader, toks),
        Phrase::Sum => sum(reader, toks),
        Phrase::Product => product(reader, toks),
        Phrase::Minus => negative(reader, toks),
        Phrase::Postfix => postfix(reader, toks),
        Phrase::Primary => primary(reader, toks),
        Phrase::Generator => generator(reader, toks),
        Phrase::Clause => clause(reader, toks),
        Phrase::Arm => arm(reader, toks),
        Phrase::Pattern => pattern(reader, toks),
    }
}

/// The phrase of this kind at the front of the toks, and how many of them it has.
#[tactic(auto, using(crate::proofs::Indices::standing))]
pub fn phrase_at(
    alloc: Global,
    bytes: &[u8],
    what: Phrase,
    toks: &[Tok],
) -> Result<(Tree, usize), ReadFault>
    ensures read { IfOk result (IsRead bytes.now what toks.now) }
    ensures sticks { (left : ℕ) → IsErrOf result (read_fault.Stuck left) →
        SticksRule (phrase what) toks.now left }
{
    let reader = Reader {
        alloc,
        bytes,
        most: toks.len(),
        nested: phrase_at,
    };
    let (expr, rest) = phrase_of(&reader, what, toks)?;
    Ok((expr, toks.len() - rest.len()))
}

/// The phrase of this kind at the front of the toks, and the toks behind it.
pub fn read<'t>(
    alloc: Global,
    bytes: &[u8],
    what: Phrase,
    toks: &'t [Tok],
) -> Result<(Tree, &'t [Tok]), ReadFault>
    ensures spelled { IfOk result (λ r. Reads bytes.now what toks.now (tree_of r.0) r.1.now) }
    ensures eats { IfOk result (λ r. EatsRule (phrase what) toks.now r.1.now) }
    ensures sticks { (left : ℕ) → IsErrOf result (read_fault.Stuck left) →
        SticksRule (phrase what) toks.now left }
    ensures shorter { IfOk result (λ r. length r.1.now < length toks.now) }
{
    let (expr, count) = phrase_at(alloc, bytes, what, toks)?;
    Ok((expr, &toks[count..]))
}
