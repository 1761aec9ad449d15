//! Primary forms of one shape: a word with a list in braces, and a word with a block.

ghost use Rattle.std.specs.Prelude.{◌≡◌, ◌<◌, ◌≤◌, ◌∷◌, ℕ, Some, IfOk, length, map};
ghost use Rattle.std.specs.Result.{IsErrOf};
ghost use Rattle.verse_tree.specs.Tree.{tree};
ghost use Rattle.verse_tree.specs.View.{tree_of, trees};
ghost use Rattle.verse_grammar.specs.Exprs.{Reads};
ghost use Rattle.verse_grammar.specs.Starts.{primary_start};
ghost use Rattle.verse_grammar.specs.Symbols.{phrase};
ghost use Rattle.verse_grammar.specs.Reading.{EatsRule, SticksRule};
ghost use Rattle.verse_grammar.specs.declared.phrases.Phrase.{Phrase};
ghost use Rattle.verse_expr_keywords.specs.Words.{list_start, list_rule, list_shape, IsList};
ghost use Rattle.verse_expr_keywords.specs.Words.{body_start};
ghost use Rattle.verse_expr_keywords.specs.Words.{body_shape};
ghost use Rattle.verse_expr_reader.specs.Nests.{Nests};
ghost use Rattle.verse_expr_reader.specs.declared.steps.ReadFault.TheVariants as read_fault;

use std::alloc::Global;
use verse_base::places::Place;
use verse_base::refusals::Memory;
use verse_expr_reader::nesting::Reader;
use verse_expr_reader::steps::{ReadFault, expect};
use verse_grammar::phrases::Phrase;
use verse_grammar::starts::Fixed;
use verse_layout::toks::Tok;
use verse_tree_nodes::trees::{Tree, Trees};
use verse_tree_nodes::{forms, literals};

/// A word that a list in braces follows.
#[derive(Clone, Copy)]
pub enum ListWord {
    Array,
    Option,
    Logic,
    Sync,
    Race,
    Rush,
}

/// A word that a block follows.
#[derive(Clone, Copy)]
pub enum BodyWord {
    Loop,
    Block,
    Branch,
}

/// A word with a list in braces.
#[tactic(auto, using(crate::proofs::RuleSets::of_list_form))]
pub fn list_form<'t, F: Fn(Global, &[u8], Phrase, &[Tok]) -> Result<(Tree, usize), ReadFault>>(
    reader: &Reader<'_, F>,
    word: ListWord,
    tok: Tok,
    toks: &'t [Tok],
) -> Result<(Tree, &'t [Tok]), ReadFault>
    requires nests { Nests reader.now.bytes.now reader.now.most (F.pre reader.now.nested)
        (F.post reader.now.nested) }
    requires fewer { length toks.now < reader.now.most }
    requires start { primary_start tok.kind ≡ Some (list_start word) }
    ensures spelled { IfOk result (λ r. Reads reader.now.bytes.now Phrase.Primary (tok ∷ toks.now)
        (tree_of r.0) r.1.now) }
    ensures eats { IfOk result (λ r. EatsRule (phrase Phrase.Primary) (tok ∷ toks.now) r.1.now) }
    ensures sticks { (left : ℕ) → IsErrOf result (read_fault.Stuck left) →
        SticksRule (phrase Phrase.Primary) (tok ∷ toks.now) left }
    ensures shorter { IfOk result (λ r. length r.1.now ≤ length toks.now) }
{
    let (_, behind) = expect(toks, Fixed::Open)?;
    let (parts, rest) = list_behind(reader, word, behind)?;
    Ok((list_node(reader.alloc, word, tok.place, parts)?, rest))
}

/// The list of a word up to Close.
fn list_behind<'t, F: Fn(Global, &[u8], Phrase, &[Tok]) -> Result<(Tree, usize), ReadFault>>(
    reader: &Reader<'_, F>,
    word: ListWord,
    toks: &'t [Tok],
) -> Result<(Trees, &'t [Tok]), ReadFault>
    requires nests { Nests reader.now.bytes.now reader.now.most (F.pre reader.now.nested)
        (F.post reader.now.nested) }
    requires fewer { length toks.now < reader.now.most }
    ensures spelled { IfOk result
        (λ r. IsList reader.now.bytes.now word toks.now (map tree_of r.0) r.1.now) }
    ensures eats { IfOk result (λ r. EatsRule (list_rule word) toks.now r.1.now) }
    ensures sticks { (left : ℕ) → IsErrOf result (read_fault.Stuck left) →
        SticksRule (list_rule word) toks.now left }
    ensures shorter { IfOk result (λ r. length r.1.now < length toks.now) }
{
    match word {
        ListWord::Array => reader.until(Phrase::Expr, Fixed::Sep, Fixed::Close, toks),
        ListWord::Option => reader.closed(Phrase::Stmt, Fixed::Sep, Fixed::Close, toks),
        ListWord::Logic => reader.closed(Phrase::Stmt, Fixed::Sep, Fixed::Close, toks),
        ListWord::Sync => reader.until(Phrase::Stmt, Fixed::Sep, Fixed::Close, toks),
        ListWord::Race => reader.until(Phrase::Stmt, Fixed::Sep, Fixed::Close, toks),
        ListWord::Rush => reader.until(Phrase::Stmt, Fixed::Sep, Fixed::Close, toks),
    }
}

/// The node of a word with a list.
fn list_node(alloc: Global, word: ListWord, place: Place, parts: Trees) -> Result<Tree, Memory>
    ensures { IfOk result (λ r. tree_of r ≡
        tree 0 place (list_shape word (trees (map tree_of parts)))) }
{
    match word {
        ListWord::Array => literals::array(alloc, place, parts),
        ListWord::Option => literals::option(alloc, place, parts),
        ListWord::Logic => literals::logic(alloc, place, parts),
        ListWord::Sync => forms::sync(alloc, place, parts),
        ListWord::Race => forms::race(alloc, place, parts),
        ListWord::Rush => forms::rush(alloc, place, parts),
    }
}

/// A word with a block.
#[tactic(auto, using(crate::proofs::RuleSets::of_body_form))]
pub fn body_form<'t, F: Fn(Global, &[u8], Phrase, &[Tok]) -> Result<(Tree, usize), ReadFault>>(
    reader: &Reader<'_, F>,
    word: BodyWord,
    tok: Tok,
    toks: &'t [Tok],
) -> Result<(Tree, &'t [Tok]), ReadFault>
    requires nests { Nests reader.now.bytes.now reader.now.most (F.pre reader.now.nested)
        (F.post reader.now.nested) }
    requires fewer { length toks.now < reader.now.most }
    requires start { primary_start tok.kind ≡ Some (body_start word) }
    ensures spelled { IfOk result (λ r. Reads reader.now.bytes.now Phrase.Primary (tok ∷ toks.now)
        (tree_of r.0) r.1.now) }
    ensures eats { IfOk result (λ r. EatsRule (phrase Phrase.Primary) (tok ∷ toks.now) r.1.now) }
    ensures sticks { (left : ℕ) → IsErrOf result (read_fault.Stuck left) →
        SticksRule (phrase Phrase.Primary) (tok ∷ toks.now) left }
    ensures shorter { IfOk result (λ r. length r.1.now ≤ length toks.now) }
{
    let (body, rest) = reader.inner(Phrase::Block, toks)?;
    Ok((body_node(reader.alloc, word, tok.place, body)?, rest))
}

/// The node of a word with a block.
fn body_node(alloc: Global, word: BodyWord, place: Place, body: Tree) -> Result<Tree, Memory>
    ensures { IfOk result (λ r. tree_of r ≡ tree 0 place (body_shape word (tree_of body))) }
{
    match word {
        BodyWord::Loop => forms::loop_form(alloc, place, body),
        BodyWord::Block => forms::block_form(alloc, place, body),
        BodyWord::Branch => forms::branch(alloc, place, body),
    }
}
