//! The items of a file.

ghost use Rattle.std.specs.Prelude.{◌≡◌, ◌≤◌, [], ℕ, List, IfOk, length, map, drop};
ghost use Rattle.std.specs.Result.{IsErrOf};
ghost use Rattle.verse_base.specs.declared.refusals.Rule.{Rule};
ghost use Rattle.verse_tree.specs.ItemTree as t;
ghost use Rattle.verse_tree.specs.ItemView.{item_of};
ghost use Rattle.verse_tree.specs.Numbering.{items_nodes};
ghost use Rattle.verse_grammar.specs.Toks.{ahead};
ghost use Rattle.verse_grammar.specs.Items.{ItemRow, Program};
ghost use Rattle.verse_grammar.specs.Items as grammar;
ghost use Rattle.verse_grammar.specs.Symbols as rules_of;
ghost use Rattle.verse_grammar.specs.Reading.{EatsRule, SticksRule};
ghost use Rattle.verse_grammar.specs.Begins.{Stops, a_program};
ghost use Rattle.verse_expr_reader.specs.declared.steps.ReadFault.TheVariants as read_fault;
ghost use Rattle.verse_expr.specs.Faults.{stop_rule};
ghost use Rattle.verse_expr.specs.declared.faults.ParseFault.TheVariants as fault;
ghost use Rattle.verse_parse.specs.StopsWith.{StopsWith};

use crate::item;
use std::alloc::Global;
use verse_expr::faults::{ParseFault, fault_of};
use verse_expr_reader::steps::{ReadFault, next, take};
use verse_grammar::starts::Fixed;
use verse_layout::toks::Tok;
use verse_tree_items::items::{ItemTree, ItemTrees};

/// The items that the toks of a file spell.
///
/// They have no more nodes than there are toks, the program's own left out.
/// Where the toks are no program, `At` has the greatest index up to which they begin one, with E069
/// where the tok of that index is left out of the language, and E030 where it is another or there
/// is none.
#[tactic(auto, using(crate::proofs::RuleSets::of_parse))]
pub fn parse(alloc: Global, bytes: &[u8], toks: &[Tok]) -> Result<ItemTrees, ParseFault>
    ensures spelled { IfOk result (λ items. Program bytes.now toks.now (map item_of items) []) }
    ensures only { IfOk result (λ items. (is : List t.ItemTree) → Program bytes.now toks.now is [] →
        is ≡ map item_of items) }
    ensures few { IfOk result (λ items. items_nodes (map item_of items) ≤ length toks.now) }
    ensures stops { (index : ℕ) (rule : Rule) → IsErrOf result (fault.At index rule) →
        Stops a_program toks.now index }
    ensures within { (index : ℕ) (rule : Rule) → IsErrOf result (fault.At index rule) →
        index ≤ length toks.now }
    ensures rule { (index : ℕ) (rule : Rule) → IsErrOf result (fault.At index rule) →
        rule.0 ≡ stop_rule (ahead (drop index toks.now)) }
{
    match items(alloc, bytes, toks) {
        Ok(items) => Ok(items),
        Err(why) => Err(fault_of(toks, why)),
    }
}

/// The items of a file, behind which is nothing.
#[tactic(auto, using(crate::specs::StopsWith::stuck_inside, crate::specs::StopsWith::left_behind))]
fn items(alloc: Global, bytes: &[u8], toks: &[Tok]) -> Result<ItemTrees, ReadFault>
    ensures spelled { IfOk result (λ items. Program bytes.now toks.now (map item_of items) []) }
    ensures stops { (left : ℕ) → IsErrOf result (read_fault.Stuck left) → StopsWith toks.now left }
{
    let (items, rest) = program(alloc, bytes, toks)?;
    match next(rest) {
        None => Ok(items),
        Some(_) => Err(ReadFault::Stuck(rest.len())),
    }
}

/// The items of a file, and the toks behind them.
#[tactic(auto, using(crate::proofs::RuleSets::of_program))]
fn program<'t>(
    alloc: Global,
    bytes: &[u8],
    toks: &'t [Tok],
) -> Result<(ItemTrees, &'t [Tok]), ReadFault>
    ensures spelled { IfOk result (λ r. Program bytes.now toks.now (map item_of r.0) r.1.now) }
    ensures eats { IfOk result (λ r. EatsRule rules_of.program toks.now r.1.now) }
    ensures sticks { (left : ℕ) → IsErrOf result (read_fault.Stuck left) →
        SticksRule rules_of.program toks.now left }
    ensures shorter { IfOk result (λ r. length r.1.now ≤ length toks.now) }
{
    let Some((_first, _rest)) = next(toks) else {
        return Ok((ItemTrees::new(alloc), toks));
    };
    let (first, rest) = item(alloc, bytes, toks)?;
    item_row(alloc, bytes, toks, first, rest)
}

/// The items from the first on, which begins at `start`.
#[tactic(auto, using(crate::proofs::RuleSets::of_item_row))]
fn item_row<'t>(
    alloc: Global,
    bytes: &[u8],
    start: &[Tok],
    first: ItemTree,
    toks: &'t [Tok],
) -> Result<(ItemTrees, &'t [Tok]), ReadFault>
    requires begun { grammar.Item bytes.now start.now (item_of first) toks.now }
    ensures spelled { IfOk result (λ r. ItemRow bytes.now start.now (map item_of r.0) r.1.now) }
    ensures eats { IfOk result (λ r. EatsRule rules_of.items_tail toks.now r.1.now) }
    ensures sticks { (left : ℕ) → IsErrOf result (read_fault.Stuck left) →
        SticksRule rules_of.items_tail toks.now left }
    ensures shorter { IfOk result (λ r. length r.1.now ≤ length toks.now) }
{
    let mut items = ItemTrees::new(alloc);
    items.push(first)?;
    let mut rest = toks;
    'items: loop {
        let Some((_sep, behind)) = take(rest, Fixed::Sep) else {
            return Ok((items, rest));
        };
        let (next, behind) = item(alloc, bytes, behind)?;
        items.push(next)?;
        rest = behind;
    }
}
