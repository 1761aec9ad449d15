//! The layers over one file: its tokens, their layout, and the items that they spell.

ghost use Rattle.std.specs.Prelude.{◌≡◌, ◌≤◌, ◌*◌, ℕ, IfOk, IsSome, length, map, slice_get};
ghost use Rattle.std.specs.Option.{option_copied};
ghost use Rattle.std.specs.Result.{IsErrOf};
ghost use Rattle.verse_base.specs.RuleText.{rule_text_of};
ghost use Rattle.verse_base.specs.declared.refusals.Refusal.{Refusal};
ghost use Rattle.verse_base.specs.declared.refusals.Front.TheVariants as front;
ghost use Rattle.verse_tree.specs.ItemView.{item_of};
ghost use Rattle.verse_tree.specs.Numbering.{items_nodes};
ghost use Rattle.verse_accept.specs.Fronts.{cutting, laying, spelling, tok_place};
ghost use Rattle.verse_accept.specs.Ready.{CanBeLaid, CanBeRead};
ghost use Rattle.verse_accept.specs.Files.{cut_of, laid_of};

use std::alloc::Global;
use verse_base::limits::MOST_FILE_BYTES;
use verse_base::places::Place;
use verse_base::refusals::{Front, Refusal};
use verse_expr::faults::ParseFault;
use verse_layout::layouts::layout;
use verse_layout::toks::Tok;
use verse_lex::tokens::Token;
use verse_lex::{lex, place_at};
use verse_parse::parse;
use verse_tree_items::items::ItemTrees;

/// A file that is cut into tokens.
#[derive(Drop)]
pub(crate) struct CutFile<'a> {
    pub(crate) bytes: &'a [u8],
    pub(crate) tokens: Vec<Token>,
}

/// A file that is laid out.
#[derive(Drop)]
pub(crate) struct LaidFile<'a> {
    pub(crate) bytes: &'a [u8],
    pub(crate) toks: Vec<Tok>,
}

/// Cuts the file of this number into tokens.
#[tactic(auto, using(crate::proofs::RuleSets::of_cut))]
pub(crate) fn cut<'a>(alloc: Global, file: u32, bytes: &'a [u8]) -> Result<CutFile<'a>, Front>
    requires { length bytes.now ≤ MOST_FILE_BYTES }
    ensures made { IfOk result (λ c. (cutting file).makes bytes.now (cut_of c)) }
    ensures ready { IfOk result (λ c. CanBeLaid (cut_of c)) }
    ensures refused { (r : Refusal) → IsErrOf result (front.Refused r) →
        (cutting file).refuses bytes.now r }
    ensures listed { (r : Refusal) → IsErrOf result (front.Refused r) →
        IsSome (rule_text_of r.rule.0) }
{
    let tokens = lex(alloc, file, bytes)?;
    Ok(CutFile { bytes, tokens })
}

/// Lays out a file.
#[tactic(auto, using(crate::proofs::ListedLayout::listed_layout))]
pub(crate) fn lay<'a>(alloc: Global, cut: &CutFile<'a>) -> Result<LaidFile<'a>, Front>
    requires { CanBeLaid (cut_of cut.now) }
    ensures made { IfOk result (λ l. (file : ℕ) →
        (laying file).makes (cut_of cut.now) (laid_of l)) }
    ensures ready { IfOk result (λ l. CanBeRead (laid_of l)) }
    ensures refused { (r : Refusal) → IsErrOf result (front.Refused r) → (file : ℕ) →
        (laying file).refuses (cut_of cut.now) r }
    ensures listed { (r : Refusal) → IsErrOf result (front.Refused r) →
        IsSome (rule_text_of r.rule.0) }
{
    let bytes = cut.bytes;
    let toks = layout(alloc, bytes, cut.tokens.as_slice())?;
    Ok(LaidFile { bytes, toks })
}

/// The items that the toks of the file of this number spell.
pub(crate) fn spell(alloc: Global, file: u32, laid: &LaidFile<'_>) -> Result<ItemTrees, Front>
    requires { CanBeRead (laid_of laid.now) }
    ensures made { IfOk result (λ items. (spelling file).makes (laid_of laid.now)
        (map item_of items)) }
    ensures few { IfOk result (λ items. items_nodes (map item_of items) ≤ 4 * MOST_FILE_BYTES) }
    ensures refused { (r : Refusal) → IsErrOf result (front.Refused r) →
        (spelling file).refuses (laid_of laid.now) r }
    ensures listed { (r : Refusal) → IsErrOf result (front.Refused r) →
        IsSome (rule_text_of r.rule.0) }
{
    match parse(alloc, laid.bytes, laid.toks.as_slice()) {
        Ok(items) => Ok(items),
        Err(ParseFault::Memory) => Err(Front::Memory),
        Err(ParseFault::At { index, rule }) => Err(Front::Refused(Refusal {
            rule,
            place: tok_place(file, laid.bytes, laid.toks.as_slice(), index),
        })),
    }
}

/// The place of the tok of this index, or the file's end.
fn tok_place(file: u32, bytes: &[u8], toks: &[Tok], index: usize) -> Place
    requires { length bytes.now ≤ MOST_FILE_BYTES }
    ensures { result ≡ tok_place file bytes.now toks.now index }
{
    match toks.get(index) {
        Some(tok) => tok.place,
        None => place_at(file, bytes, bytes.len()),
    }
}
