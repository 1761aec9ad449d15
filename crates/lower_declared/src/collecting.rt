//! The items of each kind, in their order.

ghost use Rattle.std.specs.Prelude.{◌≡◌, ◌++◌, map, IfOk, OnOk};
ghost use Rattle.verse_tree.specs.ItemView.{item_of, member_of, field_of};
ghost use Rattle.verse_meaning.specs.Programs.{enums, own_fields};
ghost use Rattle.lower_code.specs.Defaults as d;
ghost use Rattle.lower_declared.specs.Views.{enum_now, class_here, field_now};
ghost use Rattle.lower_declared.specs.Parts.{enums_at, fields_at, default_at, defaults_at};
ghost use Rattle.lower_declared.specs.Parts.{made_class, made_classes};

use std::alloc::Global;
use verse_base::refusals::Memory;
use verse_tree::items::{ClassItem, EnumItem, Field, Item, Member};

fn add_enum<'a>(found: &mut Vec<&'a EnumItem>, item: &'a Item) -> Result<(), Memory>
    ensures { OnOk result (map enum_now found.new.items ≡ map enum_now found.old.items ++
        enums_at (item_of item.now)) }
{
    match item {
        Item::Enum(item) => {
            found.push(item)?;
            Ok(())
        }
        Item::Using(_) | Item::Class(_) | Item::Fun(_) => Ok(()),
    }
}

/// The enums, by their numbers.
#[tactic(auto, using(crate::proofs::Splitting::enums_split))]
pub fn enums<'a>(alloc: Global, items: &'a [Item]) -> Result<Vec<&'a EnumItem>, Memory>
    ensures { IfOk result (λ r. map enum_now r.items ≡ enums (map item_of items.now)) }
{
    let mut found = Vec::new(alloc);
    'items: for item in items {
        add_enum(&mut found, item)?;
    }
    Ok(found)
}

fn add_class<'a>(found: &mut Vec<&'a ClassItem>, item: &'a Item) -> Result<(), Memory>
    ensures { OnOk result (map class_here found.new.items ≡ map class_here found.old.items ++
        made_class item.now) }
{
    match item {
        Item::Class(item) => {
            found.push(item)?;
            Ok(())
        }
        Item::Using(_) | Item::Enum(_) | Item::Fun(_) => Ok(()),
    }
}

/// The classes, by their numbers.
pub fn classes<'a>(alloc: Global, items: &'a [Item]) -> Result<Vec<&'a ClassItem>, Memory>
    ensures { IfOk result (λ r. map class_here r.items ≡ made_classes items.now) }
{
    let mut found = Vec::new(alloc);
    'items: for item in items {
        add_class(&mut found, item)?;
    }
    Ok(found)
}

fn add_field<'a>(found: &mut Vec<&'a Field>, member: &'a Member) -> Result<(), Memory>
    ensures { OnOk result (map field_now found.new.items ≡ map field_now found.old.items ++
        fields_at (member_of member.now)) }
{
    match member {
        Member::Field(field) => {
            found.push(field)?;
            Ok(())
        }
        Member::Method(_) => Ok(()),
    }
}

/// Adds the fields among the members.
#[tactic(auto, using(crate::proofs::Splitting::fields_split))]
pub fn add_fields<'a>(found: &mut Vec<&'a Field>, members: &'a [Member]) -> Result<(), Memory>
    ensures { OnOk result (map field_now found.new.items ≡ map field_now found.old.items ++
        own_fields (map member_of members.now)) }
{
    'members: for member in members {
        add_field(found, member)?;
    }
    Ok(())
}

fn add_with_default<'a>(found: &mut Vec<&'a Field>, field: &'a Field) -> Result<(), Memory>
    ensures { OnOk result (map field_now found.new.items ≡ map field_now found.old.items ++
        d.with_default (field_of field.now) (field_of field.now).default) }
{
    match &field.default {
        None => Ok(()),
        Some(_) => {
            found.push(field)?;
            Ok(())
        }
    }
}

fn add_default<'a>(found: &mut Vec<&'a Field>, member: &'a Member) -> Result<(), Memory>
    ensures { OnOk result (map field_now found.new.items ≡ map field_now found.old.items ++
        default_at (member_of member.now)) }
{
    match member {
        Member::Field(field) => add_with_default(found, field),
        Member::Method(_) => Ok(()),
    }
}

#[tactic(auto, using(crate::proofs::Splitting::member_defaults_split))]
fn add_defaults<'a>(found: &mut Vec<&'a Field>, members: &'a [Member]) -> Result<(), Memory>
    ensures { OnOk result (map field_now found.new.items ≡ map field_now found.old.items ++
        d.with_defaults (own_fields (map member_of members.now))) }
{
    'members: for member in members {
        add_default(found, member)?;
    }
    Ok(())
}

fn add_item_defaults<'a>(found: &mut Vec<&'a Field>, item: &'a Item) -> Result<(), Memory>
    ensures { OnOk result (map field_now found.new.items ≡ map field_now found.old.items ++
        defaults_at (item_of item.now)) }
{
    match item {
        Item::Class(class) => add_defaults(found, class.members.as_slice()),
        Item::Using(_) | Item::Enum(_) | Item::Fun(_) => Ok(()),
    }
}

/// The fields that have a default.
#[tactic(auto, using(crate::proofs::Splitting::defaults_split))]
pub fn defaults<'a>(alloc: Global, items: &'a [Item]) -> Result<Vec<&'a Field>, Memory>
    ensures { IfOk result (λ r. map field_now r.items ≡ d.defaults_in (map item_of items.now)) }
{
    let mut found = Vec::new(alloc);
    'items: for item in items {
        add_item_defaults(&mut found, item)?;
    }
    Ok(found)
}
