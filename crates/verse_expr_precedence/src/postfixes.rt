//! Postfixes.

ghost use Rattle.std.specs.Prelude.{◌≡◌, ◌<◌, ◌≤◌, ◌∷◌, ℕ, Some, None, IfOk, MatchOption, length};
ghost use Rattle.std.specs.Result.{IsErrOf};
ghost use Rattle.verse_tree.specs.View.{tree_of};
ghost use Rattle.verse_grammar.specs.Exprs.{Reads, Postfixes};
ghost use Rattle.verse_grammar.specs.Starts.{postfix_start};
ghost use Rattle.verse_grammar.specs.Symbols.{phrase, first_as, postfix_tail};
ghost use Rattle.verse_grammar.specs.Reading.{EatsRule, SticksRule};
ghost use Rattle.verse_grammar.specs.declared.phrases.Phrase.{Phrase};
ghost use Rattle.verse_grammar.specs.declared.starts.PostfixStart.{PostfixStart};
ghost use Rattle.verse_expr_reader.specs.Nests.{Nests};
ghost use Rattle.verse_expr_precedence.specs.Postfixing.{OnePostfix, PostfixEats, PostfixSticks};
ghost use Rattle.verse_expr_precedence.specs.Postfixing.{joined};
ghost use Rattle.verse_expr_reader.specs.declared.steps.ReadFault.TheVariants as read_fault;

use std::alloc::Global;
use verse_base::places::Place;
use verse_base::refusals::Memory;
use verse_expr_primary::primary::primary;
use verse_expr_reader::nesting::Reader;
use verse_expr_reader::spans::name_at;
use verse_expr_reader::steps::{ReadFault, next, take};
use verse_grammar::phrases::Phrase;
use verse_grammar::starts::{Fixed, PostfixStart, postfix_start};
use verse_layout::toks::Tok;
use verse_tree::names::Name;
use verse_tree_nodes::operators;
use verse_tree_nodes::trees::{Tree, Trees};

/// A postfix without the tree that it is put to.
#[derive(Drop)]
enum Suffix {
    /// `(E, F)`
    Call(Trees),
    /// `[E, F]`
    Index(Trees),
    /// `.F`
    Member(Name),
    /// `?`
    Query,
}

/// The beginning of a postfix at the front with its tok, and the toks behind it.
fn postfix_ahead(toks: &[Tok]) -> Option<(PostfixStart, Tok, &[Tok])>
    ensures { MatchOption result (first_as postfix_start toks.now ≡ None)
        (λ r. (toks.now ≡ r.1 ∷ r.2.now) × (postfix_start r.1.kind ≡ Some r.0)) }
{
    let (tok, behind) = next(toks)?;
    let start = postfix_start(tok.kind)?;
    Some((start, tok, behind))
}

/// A primary form with its postfixes.
#[tactic(auto, using(crate::proofs::RuleSets::of_postfix))]
pub fn postfix<'t, F: Fn(Global, &[u8], Phrase, &[Tok]) -> Result<(Tree, usize), ReadFault>>(
    reader: &Reader<'_, F>,
    toks: &'t [Tok],
) -> Result<(Tree, &'t [Tok]), ReadFault>
    requires nests { Nests reader.now.bytes.now reader.now.most (F.pre reader.now.nested)
        (F.post reader.now.nested) }
    requires within { length toks.now ≤ reader.now.most }
    ensures spelled { IfOk result
        (λ r. Reads reader.now.bytes.now Phrase.Postfix toks.now (tree_of r.0) r.1.now) }
    ensures eats { IfOk result (λ r. EatsRule (phrase Phrase.Postfix) toks.now r.1.now) }
    ensures sticks { (left : ℕ) → IsErrOf result (read_fault.Stuck left) →
        SticksRule (phrase Phrase.Postfix) toks.now left }
    ensures shorter { IfOk result (λ r. length r.1.now < length toks.now) }
{
    let (primary, rest) = primary(reader, toks)?;
    postfix_tail(reader, primary, rest)
}

/// The postfixes of a tree, from the left.
#[tactic(auto, using(crate::proofs::RuleSets::of_postfix_tail))]
pub fn postfix_tail<'t, F: Fn(Global, &[u8], Phrase, &[Tok]) -> Result<(Tree, usize), ReadFault>>(
    reader: &Reader<'_, F>,
    object: Tree,
    toks: &'t [Tok],
) -> Result<(Tree, &'t [Tok]), ReadFault>
    requires nests { Nests reader.now.bytes.now reader.now.most (F.pre reader.now.nested)
        (F.post reader.now.nested) }
    requires fewer { length toks.now < reader.now.most }
    ensures spelled { IfOk result
        (λ r. Postfixes reader.now.bytes.now (tree_of object) toks.now (tree_of r.0) r.1.now) }
    ensures eats { IfOk result (λ r. EatsRule postfix_tail toks.now r.1.now) }
    ensures sticks { (left : ℕ) → IsErrOf result (read_fault.Stuck left) →
        SticksRule postfix_tail toks.now left }
    ensures shorter { IfOk result (λ r. length r.1.now ≤ length toks.now) }
{
    let mut tree = object;
    let mut rest = toks;
    'postfixes: while let Some((start, tok, behind)) = postfix_ahead(rest) {
        let (suffix, after) = suffix_behind(reader, start, behind)?;
        tree = joined(reader.alloc, tok.place, tree, suffix)?;
        rest = after;
    }
    Ok((tree, rest))
}

/// The tree with a postfix, which begins at a place.
fn joined(alloc: Global, place: Place, object: Tree, suffix: Suffix) -> Result<Tree, Memory>
    ensures { IfOk result (λ r. tree_of r ≡ joined place (tree_of object) suffix) }
{
    match suffix {
        Suffix::Call(args) => operators::call(alloc, place, object, args),
        Suffix::Index(args) => operators::index(alloc, place, object, args),
        Suffix::Member(name) => operators::member(alloc, place, object, name),
        Suffix::Query => operators::query(alloc, place, object),
    }
}

/// One postfix, behind its first tok.
#[tactic(auto, using(crate::specs::Postfixing::one_query, crate::specs::Postfixing::eats_query))]
fn suffix_behind<'t, F: Fn(Global, &[u8], Phrase, &[Tok]) -> Result<(Tree, usize), ReadFault>>(
    reader: &Reader<'_, F>,
    start: PostfixStart,
    toks: &'t [Tok],
) -> Result<(Suffix, &'t [Tok]), ReadFault>
    requires nests { Nests reader.now.bytes.now reader.now.most (F.pre reader.now.nested)
        (F.post reader.now.nested) }
    requires fewer { length toks.now < reader.now.most }
    ensures spelled { IfOk result
        (λ r. OnePostfix reader.now.bytes.now start toks.now r.0 r.1.now) }
    ensures eats { IfOk result (λ r. PostfixEats start toks.now r.1.now) }
    ensures sticks { (left : ℕ) → IsErrOf result (read_fault.Stuck left) →
        PostfixSticks start toks.now left }
    ensures shorter { IfOk result (λ r. length r.1.now ≤ length toks.now) }
{
    match start {
        PostfixStart::Round => called(reader, toks),
        PostfixStart::Square => indexed(reader, toks),
        PostfixStart::Dot => member(reader, toks),
        PostfixStart::Question => Ok((Suffix::Query, toks)),
    }
}

/// The arguments of a call, behind the opening bracket.
#[tactic(auto, using(crate::proofs::RuleSets::of_called))]
fn called<'t, F: Fn(Global, &[u8], Phrase, &[Tok]) -> Result<(Tree, usize), ReadFault>>(
    reader: &Reader<'_, F>,
    toks: &'t [Tok],
) -> Result<(Suffix, &'t [Tok]), ReadFault>
    requires nests { Nests reader.now.bytes.now reader.now.most (F.pre reader.now.nested)
        (F.post reader.now.nested) }
    requires fewer { length toks.now < reader.now.most }
    ensures spelled { IfOk result
        (λ r. OnePostfix reader.now.bytes.now PostfixStart.Round toks.now r.0 r.1.now) }
    ensures eats { IfOk result (λ r. PostfixEats PostfixStart.Round toks.now r.1.now) }
    ensures sticks { (left : ℕ) → IsErrOf result (read_fault.Stuck left) →
        PostfixSticks PostfixStart.Round toks.now left }
    ensures shorter { IfOk result (λ r. length r.1.now ≤ length toks.now) }
{
    let (args, rest) = reader.until(Phrase::Expr, Fixed::Comma, Fixed::RoundClose, toks)?;
    Ok((Suffix::Call(args), rest))
}

/// The indices, behind the opening bracket.
#[tactic(auto, using(crate::proofs::RuleSets::of_indexed))]
fn indexed<'t, F: Fn(Global, &[u8], Phrase, &[Tok]) -> Result<(Tree, usize), ReadFault>>(
    reader: &Reader<'_, F>,
    toks: &'t [Tok],
) -> Result<(Suffix, &'t [Tok]), ReadFault>
    requires nests { Nests reader.now.bytes.now reader.now.most (F.pre reader.now.nested)
        (F.post reader.now.nested) }
    requires fewer { length toks.now < reader.now.most }
    ensures spelled { IfOk result
        (λ r. OnePostfix reader.now.bytes.now PostfixStart.Square toks.now r.0 r.1.now) }
    ensures eats { IfOk result (λ r. PostfixEats PostfixStart.Square toks.now r.1.now) }
    ensures sticks { (left : ℕ) → IsErrOf result (read_fault.Stuck left) →
        PostfixSticks PostfixStart.Square toks.now left }
    ensures shorter { IfOk result (λ r. length r.1.now ≤ length toks.now) }
{
    let (args, rest) = reader.until(Phrase::Expr, Fixed::Comma, Fixed::SquareClose, toks)?;
    Ok((Suffix::Index(args), rest))
}

/// The name of a member, behind the dot.
#[tactic(auto, using(crate::proofs::RuleSets::of_member))]
fn member<'t, F: Fn(Global, &[u8], Phrase, &[Tok]) -> Result<(Tree, usize), ReadFault>>(
    reader: &Reader<'_, F>,
    toks: &'t [Tok],
) -> Result<(Suffix, &'t [Tok]), ReadFault>
    ensures spelled { IfOk result
        (λ r. OnePostfix reader.now.bytes.now PostfixStart.Dot toks.now r.0 r.1.now) }
    ensures eats { IfOk result (λ r. PostfixEats PostfixStart.Dot toks.now r.1.now) }
    ensures sticks { (left : ℕ) → IsErrOf result (read_fault.Stuck left) →
        PostfixSticks PostfixStart.Dot toks.now left }
    ensures shorter { IfOk result (λ r. length r.1.now ≤ length toks.now) }
{
    let Some((field, rest)) = take(toks, Fixed::Name) else {
        return Err(ReadFault::Stuck(toks.len()));
    };
    Ok((
        Suffix::Member(name_at(reader.alloc, reader.bytes, field)?),
        rest,
    ))
}
