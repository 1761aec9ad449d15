//! The fields of classes, and which of them an instance is given.

ghost use Rattle.std.specs.Prelude.{◌≡◌, ◌++◌, map, length, IfOk, OnOk};
ghost use Rattle.std.specs.Option.{option_map};
ghost use Rattle.verse_tree.specs.View.{given_of, givens};
ghost use Rattle.verse_tree.specs.ItemView.{class_of};
ghost use Rattle.verse_meaning_state.specs.Waits.{nth};
ghost use Rattle.verse_meaning.specs.Programs as p;
ghost use Rattle.lower_code.specs.Lowering as l;
ghost use Rattle.lower_declared.specs.Views.{class_now, field_now, all_taken};
ghost use Rattle.lower_declared.specs.Fields.{line, last, number_of_field, place_among};

use crate::collecting::add_fields;
use crate::numbers::further;
use lower_lookup::names::is_same_name;
use sqlite_items::Items;
use std::alloc::Global;
use verse_base::refusals::Memory;
use verse_tree::exprs::Given;
use verse_tree::items::{ClassItem, Field};

fn class_named<'a>(classes: &[&'a ClassItem], name: &[u8]) -> Option<&'a ClassItem>
    ensures { option_map class_now result ≡ p.class_named name.now (map class_now classes.now) }
{
    'classes: for class in classes {
        if is_same_name(name, class.name.as_slice()) {
            return Some(*class);
        }
    }
    None
}

fn parent_of<'a>(classes: &[&'a ClassItem], class: &'a ClassItem) -> Option<&'a ClassItem>
    ensures { option_map class_now result ≡
        p.parent_of (map class_now classes.now) (class_of class.now).parent }
{
    match &class.parent {
        None => None,
        Some(name) => class_named(classes, name.as_slice()),
    }
}

fn push_last<'a>(found: &mut Vec<&'a ClassItem>, class: Option<&'a ClassItem>) -> Result<(), Memory>
    ensures { OnOk result (map class_now found.new.items ≡ map class_now found.old.items ++
        last (option_map class_now class.entry)) }
{
    match class {
        None => Ok(()),
        Some(class) => {
            found.push(class)?;
            Ok(())
        }
    }
}

/// A class with those above it, the nearest first.
#[tactic(auto, using(crate::proofs::RuleSets::of_lines))]
fn line_of<'a>(
    alloc: Global,
    classes: &[&'a ClassItem],
    class: Option<&'a ClassItem>,
) -> Result<Vec<&'a ClassItem>, Memory>
    ensures { IfOk result (λ r. map class_now r.items ≡
        line (length classes.now) (map class_now classes.now)
        (option_map class_now class.entry)) }
{
    let mut found = Vec::new(alloc);
    let mut at = class;
    'steps: for _i in 0..classes.len() {
        let Some(here) = at else {
            return Ok(found);
        };
        found.push(here)?;
        at = parent_of(classes, here);
    }
    push_last(&mut found, at)?;
    Ok(found)
}

/// The fields of a list of classes, those of the last class first. The list is emptied.
#[tactic(auto, using(crate::proofs::Lines::taken))]
fn take_fields<'a>(alloc: Global, line: &mut Items<&'a ClassItem>) -> Result<Vec<&'a Field>, Memory>
    ensures { IfOk result (λ r. map field_now r.items ≡ all_taken line.old) }
{
    let mut found = Vec::new(alloc);
    'classes: while let Some(class) = line.pop() {
        add_fields(&mut found, class.members.as_slice())?;
    }
    Ok(found)
}

#[tactic(auto, using(verse_meaning_state::proofs::Numbers::nth_is))]
fn class_at<'a>(classes: &[&'a ClassItem], class: u32) -> Option<&'a ClassItem>
    ensures { option_map class_now result ≡ nth (map class_now classes.now) class }
{
    match classes.get(class as usize) {
        None => None,
        Some(class) => Some(*class),
    }
}

/// All fields of the class of a number, the root's first.
#[tactic(auto, using(crate::proofs::Lines::line_fields, crate::proofs::Lines::taken_is))]
pub fn fields_of<'a>(
    alloc: Global,
    classes: &[&'a ClassItem],
    class: u32,
) -> Result<Vec<&'a Field>, Memory>
    ensures { IfOk result (λ r. map field_now r.items ≡
        p.fields_from (length classes.now) (map class_now classes.now)
        (nth (map class_now classes.now) class)) }
{
    let line = line_of(alloc, classes, class_at(classes, class))?;
    let mut line = Items::from_vec(line);
    take_fields(alloc, &mut line)
}

/// The local of a field by its name, where those that an instance is given lie in locals from
/// `first` on.
pub fn given_local(parts: &[Given], name: &[u8], first: u32) -> Result<Option<u32>, Memory>
    ensures { IfOk result (λ r. r ≡
        l.given_local name.now (givens (map given_of parts.now)) first) }
{
    let mut at = first;
    'parts: for part in parts {
        if is_same_name(name, part.name.as_slice()) {
            return Ok(Some(at));
        }
        at = further(at)?;
    }
    Ok(None)
}

/// The numbers of the nodes of fields.
pub fn nodes_of(alloc: Global, fields: &[&Field]) -> Result<Vec<u32>, Memory>
    ensures { IfOk result (λ r. r.items ≡ map number_of_field (map field_now fields.now)) }
{
    let mut found = Vec::new(alloc);
    'fields: for field in fields {
        found.push(field.node)?;
    }
    Ok(found)
}

/// The place of a number among these, from `first` on.
pub fn node_place(nodes: &[u32], node: u32, first: u32) -> Result<u32, Memory>
    ensures { IfOk result (λ r. r ≡ place_among node nodes.now first) }
{
    let mut at = first;
    'nodes: for other in nodes {
        if *other == node {
            return Ok(at);
        }
        at = further(at)?;
    }
    Ok(at)
}
