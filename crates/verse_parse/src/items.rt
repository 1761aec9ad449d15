//! Items.

ghost use Rattle.std.specs.Prelude.{◌≡◌, ◌<◌, ◌≤◌, ◌∷◌, [], ℕ, Some, IfOk, length, map};
ghost use Rattle.std.specs.Result.{IsErrOf};
ghost use Rattle.verse_tree.specs.ItemView.{spec_of, item_of};
ghost use Rattle.verse_grammar.specs.Starts.{item_start};
ghost use Rattle.verse_grammar.specs.declared.starts.ItemStart.TheVariants as begins;
ghost use Rattle.verse_grammar.specs.Items as grammar;
ghost use Rattle.verse_grammar.specs.Symbols as rules_of;
ghost use Rattle.verse_grammar.specs.Reading.{EatsRule, SticksRule};
ghost use Rattle.verse_expr_reader.specs.declared.steps.ReadFault.TheVariants as read_fault;
ghost use Rattle.verse_parse.specs.Rests.{UsingRest, ItemRest, Defined};

use crate::classes::class_rest;
use sqlite_items::Items;
use std::alloc::Global;
use verse_expr_reader::steps::{ReadFault, expect, next, take};
use verse_grammar::starts::{Fixed, ItemStart, item_start};
use verse_layout::toks::Tok;
use verse_parse_parts::enums::enum_rest;
use verse_parse_parts::functions::fun_rest;
use verse_parse_parts::names::{dotted, path, specifiers};
use verse_tree::items::Spec;
use verse_tree::names::Name;
use verse_tree_items::items::ItemTree;

/// An item.
#[tactic(auto, using(crate::proofs::OfItems::of_item))]
pub fn item<'t>(
    alloc: Global,
    bytes: &[u8],
    toks: &'t [Tok],
) -> Result<(ItemTree, &'t [Tok]), ReadFault>
    ensures spelled { IfOk result (λ r. grammar.Item bytes.now toks.now (item_of r.0) r.1.now) }
    ensures eats { IfOk result (λ r. EatsRule rules_of.an_item toks.now r.1.now) }
    ensures sticks { (left : ℕ) → IsErrOf result (read_fault.Stuck left) →
        SticksRule rules_of.an_item toks.now left }
    ensures shorter { IfOk result (λ r. length r.1.now < length toks.now) }
{
    let Some((tok, rest)) = next(toks) else {
        return Err(ReadFault::Stuck(0));
    };
    match item_start(tok.kind) {
        Some(ItemStart::Using) => using_at(alloc, bytes, tok, rest),
        Some(ItemStart::Name) => named_item(alloc, bytes, tok, rest),
        None => Err(ReadFault::Stuck(toks.len())),
    }
}

/// The `using` that begins with `tok`.
#[tactic(auto, using(crate::proofs::OfItems::of_using_at))]
fn using_at<'t>(
    alloc: Global,
    bytes: &[u8],
    tok: Tok,
    toks: &'t [Tok],
) -> Result<(ItemTree, &'t [Tok]), ReadFault>
    requires first { item_start tok.kind ≡ Some begins.Using }
    ensures spelled { IfOk result
        (λ r. grammar.Item bytes.now (tok ∷ toks.now) (item_of r.0) r.1.now) }
    ensures eats { IfOk result (λ r. EatsRule rules_of.an_item (tok ∷ toks.now) r.1.now) }
    ensures sticks { (left : ℕ) → IsErrOf result (read_fault.Stuck left) →
        SticksRule rules_of.an_item (tok ∷ toks.now) left }
    ensures shorter { IfOk result (λ r. length r.1.now ≤ length toks.now) }
{
    let (path, rest) = using_rest(alloc, bytes, toks)?;
    Ok((ItemTree::using(0, tok.place, path), rest))
}

/// A path in braces.
#[tactic(auto, using(crate::proofs::OfItems::of_using_rest))]
fn using_rest<'t>(
    alloc: Global,
    bytes: &[u8],
    toks: &'t [Tok],
) -> Result<(Items<Items<Name>>, &'t [Tok]), ReadFault>
    ensures spelled { IfOk result (λ r. UsingRest bytes.now toks.now r.0 r.1.now) }
    ensures eats { IfOk result (λ r. EatsRule rules_of.using_rest toks.now r.1.now) }
    ensures sticks { (left : ℕ) → IsErrOf result (read_fault.Stuck left) →
        SticksRule rules_of.using_rest toks.now left }
    ensures shorter { IfOk result (λ r. length r.1.now < length toks.now) }
{
    let (_open, start) = expect(toks, Fixed::Open)?;
    let (_slash, rest) = expect(start, Fixed::Slash)?;
    let (first, rest) = dotted(alloc, bytes, rest)?;
    let (parts, rest) = path(alloc, bytes, start, first, rest)?;
    let (_close, rest) = expect(rest, Fixed::Close)?;
    Ok((parts, rest))
}

/// The item with the name `tok`.
#[tactic(auto, using(crate::proofs::OfItems::of_named_item))]
fn named_item<'t>(
    alloc: Global,
    bytes: &[u8],
    tok: Tok,
    toks: &'t [Tok],
) -> Result<(ItemTree, &'t [Tok]), ReadFault>
    requires first { item_start tok.kind ≡ Some begins.Name }
    ensures spelled { IfOk result
        (λ r. grammar.Item bytes.now (tok ∷ toks.now) (item_of r.0) r.1.now) }
    ensures eats { IfOk result (λ r. EatsRule rules_of.an_item (tok ∷ toks.now) r.1.now) }
    ensures sticks { (left : ℕ) → IsErrOf result (read_fault.Stuck left) →
        SticksRule rules_of.an_item (tok ∷ toks.now) left }
    ensures shorter { IfOk result (λ r. length r.1.now ≤ length toks.now) }
{
    let (specs, rest) = specifiers(alloc, bytes, toks)?;
    item_rest(alloc, bytes, tok, specs, rest)
}

/// What stands behind the name `tok` and the specifiers of an item.
#[tactic(auto, using(crate::proofs::OfItems::of_item_rest))]
fn item_rest<'t>(
    alloc: Global,
    bytes: &[u8],
    tok: Tok,
    specs: Items<Spec>,
    toks: &'t [Tok],
) -> Result<(ItemTree, &'t [Tok]), ReadFault>
    ensures spelled { IfOk result
        (λ r. ItemRest bytes.now tok (map spec_of specs) toks.now (item_of r.0) r.1.now) }
    ensures eats { IfOk result (λ r. EatsRule rules_of.item_rest toks.now r.1.now) }
    ensures sticks { (left : ℕ) → IsErrOf result (read_fault.Stuck left) →
        SticksRule rules_of.item_rest toks.now left }
    ensures shorter { IfOk result (λ r. length r.1.now < length toks.now) }
{
    match take(toks, Fixed::Define) {
        Some((_define, rest)) => defined(alloc, bytes, tok, specs, rest),
        None => {
            let (fun, rest) = fun_rest(alloc, bytes, tok, specs, toks)?;
            Ok((ItemTree::function(fun), rest))
        }
    }
}

/// What stands behind `:=`, an enum or a class; `tok` is its name.
#[tactic(auto, using(crate::proofs::OfItems::of_defined))]
fn defined<'t>(
    alloc: Global,
    bytes: &[u8],
    tok: Tok,
    specs: Items<Spec>,
    toks: &'t [Tok],
) -> Result<(ItemTree, &'t [Tok]), ReadFault>
    ensures spelled { IfOk result
        (λ r. Defined bytes.now tok (map spec_of specs) toks.now (item_of r.0) r.1.now) }
    ensures eats { IfOk result (λ r. EatsRule rules_of.enum_or_class toks.now r.1.now) }
    ensures sticks { (left : ℕ) → IsErrOf result (read_fault.Stuck left) →
        SticksRule rules_of.enum_or_class toks.now left }
    ensures shorter { IfOk result (λ r. length r.1.now < length toks.now) }
{
    if let Some((_enum, rest)) = take(toks, Fixed::Enum) {
        return enum_rest(alloc, bytes, tok, specs, rest);
    }
    match take(toks, Fixed::Class) {
        Some((_class, rest)) => class_rest(alloc, bytes, tok, specs, rest),
        None => Err(ReadFault::Stuck(toks.len())),
    }
}
