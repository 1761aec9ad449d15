//! What the items of a program define, or the least rule that items and members break.

ghost use Rattle.std.specs.Prelude.{◌≡◌, ℕ, map, IfOk, length};
ghost use Rattle.std.specs.Result.{IsErrOf};
ghost use Rattle.verse_base.specs.declared.refusals.Refusal.{Refusal};
ghost use Rattle.verse_base.specs.declared.refusals.Front.TheVariants as front;
ghost use Rattle.verse_tree.specs.ItemView.{item_of};
ghost use Rattle.verse_tree.specs.PostOrder.{items_order};
ghost use Rattle.verse_rules_least.specs.Both.{Leads};
ghost use Rattle.verse_names_declarations.specs.Known.{known as facts_of, known_of};
ghost use Rattle.verse_names_items.specs.Faults as faults;
ghost use Rattle.verse_names_items.specs.Nodes.{ItemsBreak, IsNumbered, IsPlaced, IsLeastRefusal};
ghost use Rattle.verse_names_items.specs.Tables.{tables, tables_of};

use crate::faults::program_fault;
use crate::tables::{Tables, class_tables, enum_tables};
use std::alloc::Global;
use verse_base::refusals::{Front, Memory};
use verse_names_declarations::known::{Known, know};
use verse_rules_least::faults::{Fault, refusal};
use verse_tree::items::Tree;

/// The least fault of items and members, of those of rules 40 to 45 that are broken there.
pub fn least_fault<'a>(
    alloc: Global,
    known: &Known<'a>,
    tree: &'a Tree,
) -> Result<Option<Fault>, Memory>
    requires known { known_of known.now ≡ facts_of (map item_of tree.now.items) }
    requires numbered { IsNumbered (map item_of tree.now.items) tree.now.nodes }
    ensures least { IfOk result (λ f. Leads (ItemsBreak (map item_of tree.now.items)) f) }
    ensures placed { IfOk result (λ f. IsPlaced (map item_of tree.now.items) f) }
{
    let last = last_node(tree);
    let fault = program_fault(alloc, known, last, tree.items.as_slice())?;
    Ok(fault)
}

fn last_node(tree: &Tree) -> u32
    requires { IsNumbered (map item_of tree.now.items) tree.now.nodes }
    ensures { result ≡ length (items_order (map item_of tree.now.items)) }
{
    tree.nodes.saturating_sub(1)
}

/// The tables of functions, classes and enums, or the least of the rules 40 to 45 that items and
/// members break. Rules of names in bodies are not tested.
pub fn define(alloc: Global, tree: &Tree) -> Result<Tables, Front>
    requires numbered { IsNumbered (map item_of tree.now.items) tree.now.nodes }
    ensures tables { IfOk result (λ t. tables_of t ≡ tables (map item_of tree.now.items)) }
    ensures fine { IfOk result (λ _. (n c : ℕ) → ItemsBreak (map item_of tree.now.items) n c → ⊥) }
    ensures refused { (r : Refusal) → IsErrOf result (front.Refused r) →
        IsLeastRefusal (map item_of tree.now.items) r }
{
    let facts = know(alloc, tree.items.as_slice())?;
    let fault = least_fault(alloc, &facts, tree)?;
    match fault {
        Some(found) => Err(Front::Refused(refusal(found))),
        None => {
            let made = tables_from(alloc, facts, tree)?;
            Ok(made)
        }
    }
}

/// The tables of a program, of which this is known.
pub fn tables_from(alloc: Global, facts: Known, tree: &Tree) -> Result<Tables, Memory>
    requires { known_of facts ≡ facts_of (map item_of tree.now.items) }
    ensures { IfOk result (λ t. tables_of t ≡ tables (map item_of tree.now.items)) }
{
    let classes = class_tables(alloc, &facts)?;
    let enums = enum_tables(alloc, tree.items.as_slice())?;
    let Known { functions, .. } = facts;
    Ok(Tables {
        functions,
        classes,
        enums,
    })
}
