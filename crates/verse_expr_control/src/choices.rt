//! Expressions and `if`.

ghost use Rattle.std.specs.Prelude.{◌≡◌, ◌<◌, ◌≤◌, ◌∷◌, ℕ, IfOk, length};
ghost use Rattle.std.specs.Result.{IsErrOf};
ghost use Rattle.verse_lex.specs.declared.tokens.Word.TheVariants as w;
ghost use Rattle.verse_tree.specs.View.{tree_of};
ghost use Rattle.verse_grammar.specs.Exprs.{Reads, IsIf, Taken};
ghost use Rattle.verse_grammar.specs.Toks.{word};
ghost use Rattle.verse_grammar.specs.Symbols.{phrase, an_if, taken};
ghost use Rattle.verse_grammar.specs.Reading.{EatsRule, SticksRule};
ghost use Rattle.verse_grammar.specs.declared.phrases.Phrase.{Phrase};
ghost use Rattle.verse_expr_reader.specs.Nests.{Nests};
ghost use Rattle.verse_expr_reader.specs.declared.steps.ReadFault.TheVariants as read_fault;

use std::alloc::Global;
use verse_expr_precedence::levels::ors;
use verse_expr_reader::nesting::Reader;
use verse_expr_reader::steps::{ReadFault, expect, take};
use verse_grammar::phrases::Phrase;
use verse_grammar::starts::Fixed;
use verse_layout::toks::Tok;
use verse_tree_nodes::statements;
use verse_tree_nodes::trees::Tree;

/// `if`, or what is joined by `or`.
#[tactic(auto, using(crate::proofs::RuleSets::of_expr))]
pub fn expr<'t, F: Fn(Global, &[u8], Phrase, &[Tok]) -> Result<(Tree, usize), ReadFault>>(
    reader: &Reader<'_, F>,
    toks: &'t [Tok],
) -> Result<(Tree, &'t [Tok]), ReadFault>
    requires nests { Nests reader.now.bytes.now reader.now.most (F.pre reader.now.nested)
        (F.post reader.now.nested) }
    requires within { length toks.now ≤ reader.now.most }
    ensures spelled { IfOk result
        (λ r. Reads reader.now.bytes.now Phrase.Expr toks.now (tree_of r.0) r.1.now) }
    ensures eats { IfOk result (λ r. EatsRule (phrase Phrase.Expr) toks.now r.1.now) }
    ensures sticks { (left : ℕ) → IsErrOf result (read_fault.Stuck left) →
        SticksRule (phrase Phrase.Expr) toks.now left }
    ensures shorter { IfOk result (λ r. length r.1.now < length toks.now) }
{
    match take(toks, Fixed::If) {
        Some((tok, rest)) => if_form(reader, tok, rest),
        None => ors(reader, toks),
    }
}

/// What is behind `if`.
#[tactic(auto, using(crate::proofs::RuleSets::of_if_form))]
pub fn if_form<'t, F: Fn(Global, &[u8], Phrase, &[Tok]) -> Result<(Tree, usize), ReadFault>>(
    reader: &Reader<'_, F>,
    tok: Tok,
    toks: &'t [Tok],
) -> Result<(Tree, &'t [Tok]), ReadFault>
    requires nests { Nests reader.now.bytes.now reader.now.most (F.pre reader.now.nested)
        (F.post reader.now.nested) }
    requires fewer { length toks.now < reader.now.most }
    requires start { tok.kind ≡ word w.If }
    ensures spelled { IfOk result
        (λ r. IsIf reader.now.bytes.now (tok ∷ toks.now) (tree_of r.0) r.1.now) }
    ensures eats { IfOk result (λ r. EatsRule an_if (tok ∷ toks.now) r.1.now) }
    ensures sticks { (left : ℕ) → IsErrOf result (read_fault.Stuck left) →
        SticksRule an_if (tok ∷ toks.now) left }
    ensures shorter { IfOk result (λ r. length r.1.now < length toks.now) }
{
    let (_, rest) = expect(toks, Fixed::RoundOpen)?;
    let (conditions, rest) = reader.closed(Phrase::Stmt, Fixed::Comma, Fixed::RoundClose, rest)?;
    let (body, rest) = taken(reader, rest)?;
    match take(rest, Fixed::Else) {
        Some((_, rest)) => {
            let (other, rest) = reader.inner(Phrase::Body, rest)?;
            Ok((
                statements::if_else(reader.alloc, tok.place, conditions, body, other)?,
                rest,
            ))
        }
        None => Ok((
            statements::if_alone(reader.alloc, tok.place, conditions, body)?,
            rest,
        )),
    }
}

/// What an `if` comes to where its conditions hold.
#[tactic(auto, using(crate::proofs::RuleSets::of_taken))]
fn taken<'t, F: Fn(Global, &[u8], Phrase, &[Tok]) -> Result<(Tree, usize), ReadFault>>(
    reader: &Reader<'_, F>,
    toks: &'t [Tok],
) -> Result<(Tree, &'t [Tok]), ReadFault>
    requires nests { Nests reader.now.bytes.now reader.now.most (F.pre reader.now.nested)
        (F.post reader.now.nested) }
    requires fewer { length toks.now < reader.now.most }
    ensures spelled { IfOk result (λ r. Taken reader.now.bytes.now toks.now (tree_of r.0) r.1.now) }
    ensures eats { IfOk result (λ r. EatsRule taken toks.now r.1.now) }
    ensures sticks { (left : ℕ) → IsErrOf result (read_fault.Stuck left) →
        SticksRule taken toks.now left }
    ensures shorter { IfOk result (λ r. length r.1.now < length toks.now) }
{
    match take(toks, Fixed::Then) {
        Some((_, rest)) => reader.inner(Phrase::Or, rest),
        None => reader.inner(Phrase::Block, toks),
    }
}
