//! What the nodes of a program refer to, and the least rule of names that bodies break.

ghost use Rattle.std.specs.Prelude.{◌≡◌, length, map, IfOk};
ghost use Rattle.verse_tree.specs.ItemView.{item_of};
ghost use Rattle.verse_tree.specs.PostOrder.{items_order};
ghost use Rattle.verse_rules_least.specs.Both.{Leads};
ghost use Rattle.verse_names_declarations.specs.Known.{known as facts_of, known_of};
ghost use Rattle.verse_names_scopes.specs.Scopes.{through_program};
ghost use Rattle.verse_names_scopes.specs.Visits.{ref_of, program_visits, NamesBreak, IsNumbered};
ghost use Rattle.verse_names_scopes.specs.Visits.{IsPlaced};
ghost use Rattle.verse_names_scopes.specs.Naming.{noted, cut_back, nothing_named};
ghost use Rattle.verse_names_scopes.specs.Views.{naming_of};

use crate::items::walk_program;
use crate::naming::Naming;
use sqlite_items::Items;
use std::alloc::Global;
use verse_base::refusals::Memory;
use verse_names_declarations::known::Known;
use verse_rules_least::faults::Fault;
use verse_tree::items::Tree;
use verse_tree::tables::Ref;

/// What the names of a program refer to.
#[derive(Drop)]
pub struct Scoped {
    /// By the number of the node.
    pub refs: Items<Option<Ref>>,
    /// The least rule of names that a node breaks.
    pub fault: Option<Fault>,
}

/// What each node of a program refers to, by the numbers of the nodes: a name to what it stands
/// for, also one in a type, of an instance, or of the enum in a pattern; `Self` to its class; a
/// member behind a dot and all other nodes to nothing. With it the least of E040 and E041 that is
/// broken at a parameter, in a body or in a default. The rules of items and members, and of the
/// types with which fields, parameters and results are written, are not tested.
pub fn name_bodies<'a>(alloc: Global, known: &Known<'a>, tree: &'a Tree) -> Result<Scoped, Memory>
    requires known { known_of known.now ≡ facts_of (map item_of tree.now.items) }
    requires numbered { IsNumbered (map item_of tree.now.items) tree.now.nodes }
    ensures refs { IfOk result (λ r. r.refs ≡
        map ref_of (program_visits (map item_of tree.now.items))) }
    ensures least { IfOk result (λ r. Leads (NamesBreak (map item_of tree.now.items)) r.fault) }
    ensures placed { IfOk result (λ r. IsPlaced (map item_of tree.now.items) r.fault) }
{
    let naming = name(alloc, known, tree)?;
    let Naming { refs, fault, .. } = naming;
    Ok(Scoped { refs, fault })
}

fn name<'a>(alloc: Global, known: &Known<'a>, tree: &'a Tree) -> Result<Naming<'a>, Memory>
    requires known { known_of known.now ≡ facts_of (map item_of tree.now.items) }
    requires numbered { IsNumbered (map item_of tree.now.items) tree.now.nodes }
    ensures { IfOk result (λ x. naming_of x ≡
        through_program noted cut_back (map item_of tree.now.items) nothing_named) }
{
    let last = last_node(tree);
    let mut naming = Naming::new(alloc);
    walk_program(alloc, &mut naming, known, last)?;
    Ok(naming)
}

/// The number of a program's own node.
fn last_node(tree: &Tree) -> u32
    requires { IsNumbered (map item_of tree.now.items) tree.now.nodes }
    ensures { result ≡ length (items_order (map item_of tree.now.items)) }
{
    tree.nodes.saturating_sub(1)
}
