//! The whole program: the layers one behind the other.

ghost use Rattle.std.specs.Prelude.{◌≡◌, ◌≤◌, ◌<◌, IfOk, IsSome, length, map};
ghost use Rattle.std.specs.Result.{IsErrOf};
ghost use Rattle.verse_base.specs.RuleText.{rule_text_of};
ghost use Rattle.verse_base.specs.declared.refusals.Refusal.{Refusal};
ghost use Rattle.verse_base.specs.declared.refusals.Front.TheVariants as front;
ghost use Rattle.verse_tree.specs.ItemView.{item_of};
ghost use Rattle.verse_tree.specs.Numbering.{program_nodes};
ghost use Rattle.verse_tree.specs.PostOrder.{program_place};
ghost use Rattle.verse_names_items.specs.Nodes.{IsNumbered};
ghost use Rattle.verse_rules.specs.Sound.{completed, most_size, size_of, types_of};
ghost use Rattle.verse_rules_types.specs.Types.{ty_of};
ghost use Rattle.verse_accept.specs.Fronts.{Accepts, AcceptedOnce, IsRefused, refusal, testing};
ghost use Rattle.verse_accept.specs.Fronts.{to_spelled, to_joined};

use crate::turns::{cut_all, lay_all, spell_all, too_large};
use std::alloc::Global;
use verse_base::places::Place;
use verse_base::refusals::{Front, Refusal, Rule};
use verse_base::rules::PROGRAM_TOO_LARGE;
use verse_join::join;
use verse_rules::programs::{Checked, check_program};
use verse_rules::sizes::{MOST_SIZE, program_size};
use verse_tree::items::Tree;
use verse_tree::tables::Names;
use verse_tree_items::items::ProgramTree;

/// Files have at most one result: items or a refusal.
pub fn accepted_once()
    ensures { AcceptedOnce }
{}

/// A program that is accepted, with its tables and types.
#[derive(Drop)]
pub struct Accepted {
    pub tree: ProgramTree,
    pub checked: Checked,
}

/// The program in 1 to 16 files: the items of all files, in the order of the files, with all nodes
/// numbered, what its names stand for, and the types of its nodes. It is refused at the first
/// place, in the order of the layers, of the files, and of the places in a file, that breaks a
/// rule.
pub fn accept(alloc: Global, files: &[Vec<u8>]) -> Result<Accepted, Front>
    requires { length files.now ≤ 16 }
    ensures accepted { IfOk result
        (λ a. Accepts (map (λ f. f.items) files.now) (map item_of a.tree.items)) }
    ensures files { IfOk result (λ a. a.tree.files ≡ length files.now) }
    ensures counted { IfOk result (λ a. a.tree.nodes ≡ program_nodes (map item_of a.tree.items)) }
    ensures names { IfOk result (λ a. a.checked.names ≡ completed (map item_of a.tree.items)) }
    ensures types { IfOk result (λ a. map ty_of a.checked.typed.types ≡
        types_of (map item_of a.tree.items)) }
    ensures refused { (r : Refusal) → IsErrOf result (front.Refused r) →
        IsRefused (map (λ f. f.items) files.now) r }
    ensures listed { (r : Refusal) → IsErrOf result (front.Refused r) →
        IsSome (rule_text_of r.rule.0) }
{
    let tree = read(alloc, files)?;
    let checked = test(alloc, tree.get())?;
    Ok(Accepted { tree, checked })
}

/// Tests the rules over a whole program: those of names, of types and effects, and its size.
fn test(alloc: Global, tree: &Tree) -> Result<Checked, Front>
    requires numbered { IsNumbered (map item_of tree.now.items) tree.now.nodes }
    requires counted { tree.now.nodes ≡ program_nodes (map item_of tree.now.items) }
    ensures fine { IfOk result (λ _. testing.makes (map item_of tree.now.items)
        (map item_of tree.now.items)) }
    ensures names { IfOk result (λ c. c.names ≡ completed (map item_of tree.now.items)) }
    ensures types { IfOk result (λ c. map ty_of c.typed.types ≡
        types_of (map item_of tree.now.items)) }
    ensures refused { (r : Refusal) → IsErrOf result (front.Refused r) →
        testing.refuses (map item_of tree.now.items) r }
    ensures listed { (r : Refusal) → IsErrOf result (front.Refused r) →
        IsSome (rule_text_of r.rule.0) }
{
    let checked = check_program(alloc, tree)?;
    bound(tree, &checked.names)?;
    Ok(checked)
}

/// Refuses a program that is too large.
fn bound(tree: &Tree, names: &Names) -> Result<(), Front>
    requires counted { tree.now.nodes ≡ program_nodes (map item_of tree.now.items) }
    requires names { names.now ≡ completed (map item_of tree.now.items) }
    ensures fine { IfOk result (λ _. size_of (map item_of tree.now.items) ≤ most_size) }
    ensures refused { (r : Refusal) → IsErrOf result (front.Refused r) →
        (most_size < size_of (map item_of tree.now.items)) × (r ≡ refusal 98 program_place) }
    ensures listed { (r : Refusal) → IsErrOf result (front.Refused r) →
        IsSome (rule_text_of r.rule.0) }
{
    if program_size(tree, names)? <= MOST_SIZE {
        return Ok(());
    }
    let place = Place {
        file: 0,
        line: 1,
        col: 1,
    };
    Err(Front::Refused(Refusal {
        rule: Rule(PROGRAM_TOO_LARGE),
        place,
    }))
}

/// The program that the files spell.
fn read(alloc: Global, files: &[Vec<u8>]) -> Result<ProgramTree, Front>
    requires { length files.now ≤ 16 }
    ensures numbered { IfOk result (λ tree. IsNumbered (map item_of tree.items) tree.nodes) }
    ensures counted { IfOk result (λ tree. tree.nodes ≡ program_nodes (map item_of tree.items)) }
    ensures made { IfOk result (λ tree. to_joined.makes (map (λ f. f.items) files.now)
        (map item_of tree.items)) }
    ensures files { IfOk result (λ tree. tree.files ≡ length files.now) }
    ensures refused { (r : Refusal) → IsErrOf result (front.Refused r) →
        to_spelled.refuses (map (λ f. f.items) files.now) r }
    ensures listed { (r : Refusal) → IsErrOf result (front.Refused r) →
        IsSome (rule_text_of r.rule.0) }
{
    if let Some(refusal) = too_large(files) {
        return Err(Front::Refused(refusal));
    }
    let cuts = cut_all(alloc, files)?;
    let laid = lay_all(alloc, cuts.as_slice())?;
    let items = spell_all(alloc, laid.as_slice())?;
    Ok(join(alloc, items)?)
}
