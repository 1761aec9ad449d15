//! A program's tables and types, or the least rule that it breaks.

ghost use Rattle.std.specs.Prelude.{◌≡◌, ℕ, map, IfOk};
ghost use Rattle.std.specs.Result.{IsErrOf};
ghost use Rattle.verse_base.specs.declared.refusals.Refusal.{Refusal};
ghost use Rattle.verse_base.specs.declared.refusals.Front.TheVariants as front;
ghost use Rattle.verse_tree.specs.ItemView.{item_of};
ghost use Rattle.verse_rules_types.specs.Types.{ty_of};
ghost use Rattle.verse_rules_least.specs.Both.{Leads};
ghost use Rattle.verse_names_items.specs.Nodes.{IsNumbered, IsPlaced};
ghost use Rattle.verse_rules.specs.Breaking.{NamesBreak, IsMisnamed};
ghost use Rattle.verse_rules.specs.Naming.{named};
ghost use Rattle.verse_rules.specs.Sound.{BodiesBreak, IsSound, IsUnsound, SoundOnce, completed};
ghost use Rattle.verse_rules.specs.Sound.{types_of};

use crate::naming::{Named, name_program};
use sqlite_items::Items;
use std::alloc::Global;
use verse_base::refusals::{Front, Memory};
use verse_check::checking::{Found, look};
use verse_effects::checking::least_fault;
use verse_names_items::tables::Tables;
use verse_rules_least::faults::{Fault, lesser, refusal};
use verse_tree::items::Tree;
use verse_tree::tables::{Names, Ref, Typed};

/// What the names of a program stand for, members behind a dot among them, and the types of its
/// nodes.
#[derive(Drop)]
pub struct Checked {
    pub names: Names,
    pub typed: Typed,
}

/// A program has at most one refusal for a rule of names, types or effects, and none where it
/// breaks no such rule.
pub fn sound_once()
    ensures { SoundOnce }
{}

/// The tables and types of a program; or the refusal for the least rule of names that it breaks,
/// E040 to E045, or where it breaks none, for the least of types and effects, E050 to E068 and
/// E070, at the place of its node.
pub fn check_program(alloc: Global, tree: &Tree) -> Result<Checked, Front>
    requires numbered { IsNumbered (map item_of tree.now.items) tree.now.nodes }
    ensures names { IfOk result (λ c. c.names ≡ completed (map item_of tree.now.items)) }
    ensures types { IfOk result (λ c. map ty_of c.typed.types ≡
        types_of (map item_of tree.now.items)) }
    ensures fine { IfOk result (λ _. IsSound (map item_of tree.now.items)) }
    ensures refused { (r : Refusal) → IsErrOf result (front.Refused r) →
        IsUnsound (map item_of tree.now.items) r }
{
    let names = name(alloc, tree)?;
    let judged = judge(alloc, tree, names)?;
    let (checked, fault) = judged;
    match fault {
        Some(fault) => Err(Front::Refused(refusal(fault))),
        None => Ok(checked),
    }
}

/// What the names of a program stand for, or the refusal for the least rule of names that it
/// breaks.
fn name(alloc: Global, tree: &Tree) -> Result<Names, Front>
    requires numbered { IsNumbered (map item_of tree.now.items) tree.now.nodes }
    ensures names { IfOk result (λ k. k ≡ named (map item_of tree.now.items)) }
    ensures fine { IfOk result (λ _. (n c : ℕ) → NamesBreak (map item_of tree.now.items) n c → ⊥) }
    ensures refused { (r : Refusal) → IsErrOf result (front.Refused r) →
        IsMisnamed (map item_of tree.now.items) r }
{
    let named = name_program(alloc, tree)?;
    Ok(into_names(named))
}

/// The types of a program with what its members refer to, and the least rule of types and effects
/// that it breaks.
fn judge(alloc: Global, tree: &Tree, names: Names) -> Result<(Checked, Option<Fault>), Memory>
    requires numbered { IsNumbered (map item_of tree.now.items) tree.now.nodes }
    requires names { names ≡ named (map item_of tree.now.items) }
    ensures names { IfOk result (λ r. r.0.names ≡ completed (map item_of tree.now.items)) }
    ensures types { IfOk result (λ r. map ty_of r.0.typed.types ≡
        types_of (map item_of tree.now.items)) }
    ensures least { IfOk result (λ r. Leads (BodiesBreak (map item_of tree.now.items)) r.1) }
    ensures placed { IfOk result (λ r. IsPlaced (map item_of tree.now.items) r.1) }
{
    let found = look(alloc, tree, &names)?;
    let Found {
        types,
        refs,
        vars: _,
        fault: mistyped,
    } = found;
    let names = with_refs(names, refs);
    let fault = least_fault(alloc, tree, &names)?;
    let typed = Typed { types };
    Ok((Checked { names, typed }, lesser(mistyped, fault)))
}

fn into_names(named: Named) -> Names
    ensures { result ≡ record {
      funs = named.tables.functions;
      classes =
          named.tables.classes;
      enums = named.tables.enums;
      refs = named.refs;
    } }
{
    let Named { tables, refs } = named;
    let Tables {
        functions,
        classes,
        enums,
    } = tables;
    Names {
        funs: functions,
        classes,
        enums,
        refs,
    }
}

fn with_refs(names: Names, refs: Items<Option<Ref>>) -> Names
    ensures { result ≡ record names { refs = refs } }
{
    let Names {
        funs,
        classes,
        enums,
        refs: _,
    } = names;
    Names {
        funs,
        classes,
        enums,
        refs,
    }
}
