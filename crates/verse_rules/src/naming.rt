//! A program's tables and references, or the least rule of names that it breaks.

ghost use Rattle.std.specs.Prelude.{◌≡◌, ℕ, map, IfOk};
ghost use Rattle.std.specs.Result.{IsErrOf};
ghost use Rattle.verse_base.specs.declared.refusals.Refusal.{Refusal};
ghost use Rattle.verse_base.specs.declared.refusals.Front.TheVariants as front;
ghost use Rattle.verse_tree.specs.ItemView.{item_of};
ghost use Rattle.verse_names_items.specs.Nodes.{IsNumbered};
ghost use Rattle.verse_names_items.specs.Tables.{tables_of, tables};
ghost use Rattle.verse_names_scopes.specs.Visits.{ref_of, program_visits};
ghost use Rattle.verse_rules.specs.Breaking.{NamesBreak, IsMisnamed};

use sqlite_items::Items;
use std::alloc::Global;
use verse_base::refusals::{Front, Memory};
use verse_names_declarations::known::know;
use verse_names_items::declarations::{least_fault, tables_from};
use verse_names_items::tables::Tables;
use verse_names_scopes::bodies::{Scoped, name_bodies};
use verse_rules_least::faults::{lesser, refusal};
use verse_tree::items::Tree;
use verse_tree::tables::Ref;

/// What the names of a program stand for.
#[derive(Drop)]
pub struct Named {
    pub tables: Tables,
    /// What each node refers to by a bare name, by its number. Members behind a dot refer to
    /// nothing here: they need the types of their objects.
    pub refs: Items<Option<Ref>>,
}

/// What the names of a program stand for, or the refusal for the least rule of names that it
/// breaks, E040 to E045, at the place of its node.
pub fn name_program(alloc: Global, tree: &Tree) -> Result<Named, Front>
    requires numbered { IsNumbered (map item_of tree.now.items) tree.now.nodes }
    ensures tables { IfOk result (λ n. tables_of n.tables ≡ tables (map item_of tree.now.items)) }
    ensures refs { IfOk result (λ n. n.refs ≡
        map ref_of (program_visits (map item_of tree.now.items))) }
    ensures fine { IfOk result (λ _. (n c : ℕ) → NamesBreak (map item_of tree.now.items) n c → ⊥) }
    ensures refused { (r : Refusal) → IsErrOf result (front.Refused r) →
        IsMisnamed (map item_of tree.now.items) r }
{
    let known = know(alloc, tree.items.as_slice())?;
    let scoped = name_bodies(alloc, &known, tree)?;
    let items = least_fault(alloc, &known, tree)?;
    match lesser(items, scoped.fault) {
        Some(fault) => Err(Front::Refused(refusal(fault))),
        None => {
            let tables = tables_from(alloc, known, tree)?;
            let Scoped { refs, .. } = scoped;
            Ok(Named { tables, refs })
        }
    }
}
