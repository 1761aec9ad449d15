//! Enums.

ghost use Rattle.std.specs.Prelude.{◌≡◌, ◌<◌, ◌≤◌, ◌∷◌, [], ℕ, IfOk, length, map};
ghost use Rattle.std.specs.Result.{IsErrOf};
ghost use Rattle.verse_tree.specs.ItemView.{spec_of, item_of};
ghost use Rattle.verse_grammar.specs.Toks.{name, name_at};
ghost use Rattle.verse_grammar.specs.Items.{ValueRow, Values};
ghost use Rattle.verse_grammar.specs.Symbols as rules_of;
ghost use Rattle.verse_grammar.specs.Reading.{EatsRule, SticksRule};
ghost use Rattle.verse_expr_reader.specs.declared.steps.ReadFault.TheVariants as read_fault;
ghost use Rattle.verse_parse_parts.specs.Rests.{EnumRest};

use crate::names::head_at;
use sqlite_items::Items;
use std::alloc::Global;
use verse_expr_reader::spans::name_at;
use verse_expr_reader::steps::{ReadFault, expect, take};
use verse_grammar::starts::Fixed;
use verse_layout::toks::Tok;
use verse_tree::items::Spec;
use verse_tree::names::Name;
use verse_tree_items::items::ItemTree;

/// What stands behind `enum`; `tok` is the enum's name.
#[tactic(auto, using(crate::proofs::RuleSets::of_enum_rest))]
pub fn enum_rest<'t>(
    alloc: Global,
    bytes: &[u8],
    tok: Tok,
    specs: Items<Spec>,
    toks: &'t [Tok],
) -> Result<(ItemTree, &'t [Tok]), ReadFault>
    ensures spelled { IfOk result
        (λ r. EnumRest bytes.now tok (map spec_of specs) toks.now (item_of r.0) r.1.now) }
    ensures eats { IfOk result (λ r. EatsRule rules_of.enum_rest toks.now r.1.now) }
    ensures sticks { (left : ℕ) → IsErrOf result (read_fault.Stuck left) →
        SticksRule rules_of.enum_rest toks.now left }
    ensures shorter { IfOk result (λ r. length r.1.now < length toks.now) }
{
    let (_braces, rest) = expect(toks, Fixed::Open)?;
    let (values, rest) = values(alloc, bytes, rest)?;
    let head = head_at(tok.place, name_at(alloc, bytes, tok)?, specs);
    Ok((ItemTree::enumeration(head, values), rest))
}

/// Values up to the end of the block.
#[tactic(auto, using(crate::proofs::RuleSets::of_values))]
fn values<'t>(
    alloc: Global,
    bytes: &[u8],
    toks: &'t [Tok],
) -> Result<(Items<Name>, &'t [Tok]), ReadFault>
    ensures spelled { IfOk result (λ r. Values bytes.now toks.now r.0 r.1.now) }
    ensures eats { IfOk result (λ r. EatsRule rules_of.values_until toks.now r.1.now) }
    ensures sticks { (left : ℕ) → IsErrOf result (read_fault.Stuck left) →
        SticksRule rules_of.values_until toks.now left }
    ensures shorter { IfOk result (λ r. length r.1.now < length toks.now) }
{
    if let Some((_close, rest)) = take(toks, Fixed::Close) {
        return Ok((Items::new(alloc), rest));
    }
    let (first, rest) = expect(toks, Fixed::Name)?;
    let (values, rest) = value_row(alloc, bytes, first, rest)?;
    let (_close, rest) = expect(rest, Fixed::Close)?;
    Ok((values, rest))
}

/// A value and those behind it.
#[tactic(auto, using(crate::proofs::RuleSets::of_value_row))]
fn value_row<'t>(
    alloc: Global,
    bytes: &[u8],
    tok: Tok,
    toks: &'t [Tok],
) -> Result<(Items<Name>, &'t [Tok]), ReadFault>
    requires first { tok.kind ≡ name }
    ensures spelled { IfOk result (λ r. ValueRow bytes.now (tok ∷ toks.now) r.0 r.1.now) }
    ensures eats { IfOk result (λ r. EatsRule rules_of.values_tail toks.now r.1.now) }
    ensures sticks { (left : ℕ) → IsErrOf result (read_fault.Stuck left) →
        SticksRule rules_of.values_tail toks.now left }
    ensures shorter { IfOk result (λ r. length r.1.now ≤ length toks.now) }
{
    let mut values = Items::new(alloc);
    values.push(name_at(alloc, bytes, tok)?)?;
    let mut rest = toks;
    'values: loop {
        let Some((_sep, behind)) = take(rest, Fixed::Sep) else {
            return Ok((values, rest));
        };
        let (value, behind) = expect(behind, Fixed::Name)?;
        values.push(name_at(alloc, bytes, value)?)?;
        rest = behind;
    }
}
