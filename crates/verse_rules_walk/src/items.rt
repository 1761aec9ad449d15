//! The walk over what a program defines.

ghost use Rattle.std.specs.Prelude.{◌≡◌, map, OnOk};
ghost use Rattle.std.specs.Option.{option_map};
ghost use Rattle.verse_tree.specs.View.{tree_of, written_of};
ghost use Rattle.verse_tree.specs.ItemView.{param_of, fun_of, field_of, member_of, item_of};
ghost use Rattle.verse_rules_walk.specs.Through.{through_params, through_fun, through_default};
ghost use Rattle.verse_rules_walk.specs.Through.{through_field, through_member, through_members};
ghost use Rattle.verse_rules_walk.specs.Through.{through_item, through_items};
ghost use Rattle.verse_rules_walk.specs.Nodes.{items_nodes};
ghost use Rattle.verse_rules_least.specs.Least.{each};

use crate::arounds::{body_around, default_around, effects_written, outside};
use crate::passes::{Part, Pass};
use crate::trees::walk;
use crate::types::walk_type;
use sqlite_items::Boxed;
use verse_base::refusals::Memory;
use verse_tree::exprs::Expr;
use verse_tree::items::{Field, Fun, Item, Member, Param};
use verse_tree::types::TyExpr;

/// Does a pass at all nodes of a program's items, in the order of their numbers.
#[tactic(auto, using(crate::proofs::Through::through_items_nodes))]
pub fn walk_items<P: Pass>(pass: &P, seen: &mut P::Seen, items: &[Item]) -> Result<(), Memory>
    ensures { OnOk result (P.sight seen.new ≡
        each (P.step pass.now) (items_nodes (map item_of items.now)) (P.sight seen.old)) }
{
    walk_in_turn(pass, seen, items)
}

fn walk_in_turn<P: Pass>(pass: &P, seen: &mut P::Seen, items: &[Item]) -> Result<(), Memory>
    ensures { OnOk result (P.sight seen.new ≡
        through_items (P.step pass.now) (map item_of items.now) (P.sight seen.old)) }
{
    'items: for item in items {
        walk_item(pass, seen, item)?;
    }
    Ok(())
}

fn walk_item<P: Pass>(pass: &P, seen: &mut P::Seen, item: &Item) -> Result<(), Memory>
    ensures { OnOk result (P.sight seen.new ≡ through_item (P.step pass.now) (item_of item.now)
        (P.sight seen.old)) }
{
    match item {
        Item::Using(_) => {}
        Item::Enum(_) => {}
        Item::Class(class) => walk_members(pass, seen, class.members.as_slice())?,
        Item::Fun(fun) => walk_fun(pass, seen, fun)?,
    }
    pass.note(seen, outside(), Part::Item(item))
}

fn walk_members<P: Pass>(pass: &P, seen: &mut P::Seen, members: &[Member]) -> Result<(), Memory>
    ensures { OnOk result (P.sight seen.new ≡
        through_members (P.step pass.now) (map member_of members.now) (P.sight seen.old)) }
{
    'members: for member in members {
        walk_member(pass, seen, member)?;
    }
    Ok(())
}

fn walk_member<P: Pass>(pass: &P, seen: &mut P::Seen, member: &Member) -> Result<(), Memory>
    ensures { OnOk result (P.sight seen.new ≡
        through_member (P.step pass.now) (member_of member.now) (P.sight seen.old)) }
{
    match member {
        Member::Field(field) => walk_field(pass, seen, field)?,
        Member::Method(fun) => walk_fun(pass, seen, fun)?,
    }
    pass.note(seen, outside(), Part::Member(member))
}

fn walk_field<P: Pass>(pass: &P, seen: &mut P::Seen, field: &Field) -> Result<(), Memory>
    ensures { OnOk result (P.sight seen.new ≡ through_field (P.step pass.now) (field_of field.now)
        (P.sight seen.old)) }
{
    walk_type(pass, seen, outside(), &field.ty)?;
    walk_default(pass, seen, &field.ty, &field.default)
}

fn walk_default<P: Pass>(
    pass: &P,
    seen: &mut P::Seen,
    ty: &TyExpr,
    default: &Option<Boxed<Expr>>,
) -> Result<(), Memory>
    ensures { OnOk result (P.sight seen.new ≡ through_default (P.step pass.now) (written_of ty.now)
        (option_map tree_of default.now) (P.sight seen.old)) }
{
    match default {
        None => Ok(()),
        Some(value) => walk(pass, seen, default_around(ty), value.get()),
    }
}

fn walk_fun<P: Pass>(pass: &P, seen: &mut P::Seen, fun: &Fun) -> Result<(), Memory>
    ensures { OnOk result (P.sight seen.new ≡ through_fun (P.step pass.now) (fun_of fun.now)
        (P.sight seen.old)) }
{
    walk_params(pass, seen, fun.params.as_slice())?;
    walk_type(pass, seen, outside(), &fun.result)?;
    let effects = effects_written(fun.effects.as_slice());
    walk(
        pass,
        seen,
        body_around(fun.node, effects, &fun.result),
        fun.body.get(),
    )
}

fn walk_params<P: Pass>(pass: &P, seen: &mut P::Seen, params: &[Param]) -> Result<(), Memory>
    ensures { OnOk result (P.sight seen.new ≡
        through_params (P.step pass.now) (map param_of params.now) (P.sight seen.old)) }
{
    'params: for param in params {
        walk_type(pass, seen, outside(), &param.ty)?;
        pass.note(seen, outside(), Part::Param(param))?;
    }
    Ok(())
}
