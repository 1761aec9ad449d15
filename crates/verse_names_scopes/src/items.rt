//! The walk over what a program defines.

ghost use Rattle.std.specs.Prelude.{◌≡◌, map, IfOk, OnOk};
ghost use Rattle.std.specs.Option.{option_map};
ghost use Rattle.verse_tree.specs.View.{tree_of};
ghost use Rattle.verse_tree.specs.ItemView.{param_of, fun_of, field_of, member_of, class_of};
ghost use Rattle.verse_tree.specs.ItemView.{item_of};
ghost use Rattle.verse_tree.specs.PostOrder.{program_place};
ghost use Rattle.verse_names_tables.specs.Counting.{counted_of};
ghost use Rattle.verse_names_declarations.specs.Known.{known_of};
ghost use Rattle.verse_names_declarations.specs.Lines.{all_members, members_view};
ghost use Rattle.verse_names_scopes.specs.Visible.{inside, outside};
ghost use Rattle.verse_names_scopes.specs.Subjects.{quiet};
ghost use Rattle.verse_names_scopes.specs.Scopes.{through_params, through_fun, through_default};
ghost use Rattle.verse_names_scopes.specs.Scopes.{through_field, through_member, through_members};
ghost use Rattle.verse_names_scopes.specs.Scopes.{through_item, through_items};
ghost use Rattle.verse_names_scopes.specs.Naming.{noted, cut_back};
ghost use Rattle.verse_names_scopes.specs.Views.{world_of, naming_of};

use crate::naming::{Naming, World};
use crate::trees::walk;
use crate::types::walk_type;
use sqlite_items::Boxed;
use std::alloc::Global;
use verse_base::places::Place;
use verse_base::refusals::Memory;
use verse_names_declarations::known::Known;
use verse_names_declarations::members::{Members, all_members};
use verse_names_tables::counting::Counted;
use verse_tree::exprs::Expr;
use verse_tree::items::{ClassItem, Field, Fun, Item, Member, Param};

/// Where a program's own node stands.
const PROGRAM: Place = Place {
    file: 0,
    line: 1,
    col: 1,
};

fn walk_params<'a>(
    naming: &mut Naming<'a>,
    world: &World<'_, 'a>,
    params: &'a [Param],
) -> Result<(), Memory>
    ensures { OnOk result (naming_of naming.new ≡
        through_params (noted (world_of world.now)) cut_back (map param_of params.now)
        (naming_of naming.old)) }
{
    'params: for param in params {
        walk_type(naming, world, false, &param.ty)?;
        naming.define(world, param.node, param.place, param.name.as_slice())?;
    }
    Ok(())
}

fn walk_fun<'a>(naming: &mut Naming<'a>, world: &World<'_, 'a>, fun: &'a Fun) -> Result<(), Memory>
    ensures { OnOk result (naming_of naming.new ≡ through_fun (noted (world_of world.now)) cut_back
        (fun_of fun.now) (naming_of naming.old)) }
{
    let mark = naming.mark();
    walk_params(naming, world, fun.params.as_slice())?;
    walk_type(naming, world, false, &fun.result)?;
    walk(naming, world, fun.body.get())?;
    naming.leave(mark);
    Ok(())
}

fn walk_default<'a>(
    naming: &mut Naming<'a>,
    world: &World<'_, 'a>,
    default: &'a Option<Boxed<Expr>>,
) -> Result<(), Memory>
    ensures { OnOk result (naming_of naming.new ≡
        through_default (noted (world_of world.now)) cut_back (option_map tree_of default.now)
        (naming_of naming.old)) }
{
    match default {
        None => Ok(()),
        Some(value) => {
            let mark = naming.mark();
            walk(naming, world, value.get())?;
            naming.leave(mark);
            Ok(())
        }
    }
}

fn walk_field<'a>(
    naming: &mut Naming<'a>,
    world: &World<'_, 'a>,
    field: &'a Field,
) -> Result<(), Memory>
    ensures { OnOk result (naming_of naming.new ≡
        through_field (noted (world_of world.now)) cut_back (field_of field.now)
        (naming_of naming.old)) }
{
    walk_type(naming, world, false, &field.ty)?;
    walk_default(naming, world, &field.default)
}

fn walk_member<'a>(
    naming: &mut Naming<'a>,
    known: &Known<'a>,
    outer: &World<'_, 'a>,
    inner: &World<'_, 'a>,
    member: &'a Member,
) -> Result<(), Memory>
    ensures { OnOk result (naming_of naming.new ≡ through_member noted cut_back (known_of known.now)
        (world_of outer.now) (world_of inner.now) (member_of member.now) (naming_of naming.old)) }
{
    match member {
        Member::Field(field) => {
            walk_field(naming, outer, field)?;
            naming.pass_by(outer, field.node, field.place)
        }
        Member::Method(fun) => {
            walk_fun(naming, inner, fun)?;
            naming.pass_by(outer, fun.node, fun.place)
        }
    }
}

fn walk_members<'a>(
    naming: &mut Naming<'a>,
    known: &Known<'a>,
    outer: &World<'_, 'a>,
    inner: &World<'_, 'a>,
    members: &'a [Member],
) -> Result<(), Memory>
    ensures { OnOk result (naming_of naming.new ≡
        through_members noted cut_back (known_of known.now) (world_of outer.now)
        (world_of inner.now) (map member_of members.now) (naming_of naming.old)) }
{
    'members: for member in members {
        walk_member(naming, known, outer, inner, member)?;
    }
    Ok(())
}

/// All members of a class, as its own.
fn members_of<'a>(alloc: Global, known: &Known<'a>, class: u32) -> Result<Members<'a>, Memory>
    ensures view { IfOk result (λ m. members_view m ≡ all_members (known_of known.now) class) }
    ensures class { IfOk result (λ m. m.class ≡ class) }
{
    all_members(alloc, known, class)?.copy(class)
}

/// What is visible in the methods of a class.
fn world_in<'w, 'a>(known: &'w Known<'a>, members: &'w Members<'a>, class: u32) -> World<'w, 'a>
    requires view { members_view members.now ≡ all_members (known_of known.now) class }
    requires class { members.now.class ≡ class }
    ensures { world_of result ≡ inside (known_of known.now) class }
{
    World {
        items: &known.index.items,
        types: &known.index.types,
        members: Some(members),
        class: Some(class),
    }
}

fn walk_class<'a>(
    alloc: Global,
    naming: &mut Naming<'a>,
    known: &Known<'a>,
    world: &World<'_, 'a>,
    number: u32,
    item: &'a ClassItem,
) -> Result<(), Memory>
    requires outside { world_of world.now ≡ outside (known_of known.now) }
    ensures { OnOk result (naming_of naming.new ≡
        through_members noted cut_back (known_of known.now) (outside (known_of known.now))
        (inside (known_of known.now) number) (class_of item.now).members (naming_of naming.old)) }
{
    let members = members_of(alloc, known, number)?;
    let inner = world_in(known, &members, number);
    walk_members(naming, known, world, &inner, item.members.as_slice())
}

fn walk_item<'a>(
    alloc: Global,
    naming: &mut Naming<'a>,
    known: &Known<'a>,
    world: &World<'_, 'a>,
    counted: &Counted<'a>,
) -> Result<(), Memory>
    requires outside { world_of world.now ≡ outside (known_of known.now) }
    ensures { OnOk result (naming_of naming.new ≡ through_item noted cut_back (known_of known.now)
        (counted_of counted.now).item (counted_of counted.now).before (naming_of naming.old)) }
{
    match counted.item {
        Item::Using(item) => naming.pass_by(world, item.node, item.place),
        Item::Enum(item) => naming.pass_by(world, item.node, item.place),
        Item::Class(item) => {
            walk_class(alloc, naming, known, world, counted.before.classes, item)?;
            naming.pass_by(world, item.node, item.place)
        }
        Item::Fun(fun) => {
            walk_fun(naming, world, fun)?;
            naming.pass_by(world, fun.node, fun.place)
        }
    }
}

fn walk_items<'a>(
    alloc: Global,
    naming: &mut Naming<'a>,
    known: &Known<'a>,
    world: &World<'_, 'a>,
    items: &[Counted<'a>],
) -> Result<(), Memory>
    requires outside { world_of world.now ≡ outside (known_of known.now) }
    ensures { OnOk result (naming_of naming.new ≡ through_items noted cut_back (known_of known.now)
        (map counted_of items.now) (naming_of naming.old)) }
{
    'items: for item in items {
        walk_item(alloc, naming, known, world, item)?;
    }
    Ok(())
}

/// Names all nodes of a program, whose own node has the number `last`.
pub fn walk_program<'a>(
    alloc: Global,
    naming: &mut Naming<'a>,
    known: &Known<'a>,
    last: u32,
) -> Result<(), Memory>
    ensures { OnOk result (naming_of naming.new ≡
        noted (outside (known_of known.now)) last program_place quiet
        (through_items noted cut_back (known_of known.now) (known_of known.now).items
        (naming_of naming.old))) }
{
    let world = World {
        items: &known.index.items,
        types: &known.index.types,
        members: None,
        class: None,
    };
    walk_items(alloc, naming, known, &world, &known.items)?;
    naming.pass_by(&world, last, PROGRAM)
}
