//! Numbers the nodes of items: parts before the whole, and from left to right.

ghost use Rattle.std.specs.Prelude.{◌≡◌, ◌≤◌, ◌+◌, map, IfOk};
ghost use Rattle.std.specs.Option.{option_map};
ghost use Rattle.verse_tree.specs.ItemTree as t;
ghost use Rattle.verse_tree.specs.View.{tree_of};
ghost use Rattle.verse_tree.specs.ItemView.{using_of, enum_of, field_of, param_of, fun_of};
ghost use Rattle.verse_tree.specs.ItemView.{member_of, class_of, item_of};
ghost use Rattle.verse_tree.specs.Numbering.{list_nodes, list_numbered, default_nodes};
ghost use Rattle.verse_tree.specs.Numbering.{default_numbered, using_numbered, enum_numbered};
ghost use Rattle.verse_tree.specs.Numbering.{field_nodes, field_numbered, param_nodes};
ghost use Rattle.verse_tree.specs.Numbering.{param_numbered, fun_nodes, fun_numbered, member_nodes};
ghost use Rattle.verse_tree.specs.Numbering.{member_numbered, class_nodes, class_numbered};
ghost use Rattle.verse_tree.specs.Numbering.{item_nodes, item_numbered};

use sqlite_items::Boxed;
use std::alloc::Global;
use verse_base::places::Place;
use verse_base::refusals::Memory;
use verse_join_exprs::numbering::number;
use verse_join_parts::copies::{copied, copied_names, copied_option, copied_path, copied_specs};
use verse_join_parts::type_numbering::number_type;
use verse_tree::exprs::Expr;
use verse_tree::items::{ClassItem, EnumItem, Field, Fun, Item, Member, Param, Spec, Using};
use verse_tree::names::Name;
use verse_tree_items::funs::{FunTree, Head, ParamTree, ParamTrees};
use verse_tree_items::items::{ItemTree, ItemTrees};
use verse_tree_items::members::{MemberTree, MemberTrees, member_field};
use verse_tree_nodes::trees::Tree;

/// A copy of the items with their nodes numbered from `next` on, and the number behind the last.
pub fn number_items(alloc: Global, parts: &[Item], next: u32) -> Result<(ItemTrees, u32), Memory>
    requires fits { next + list_nodes item_nodes (map item_of parts.now) ≤ 4294967295 }
    ensures numbered { IfOk result
        (λ r. map item_of r.0 ≡ list_numbered item_numbered item_nodes
        (map item_of parts.now) next) }
    ensures behind { IfOk result (λ r. r.1 ≡ next + list_nodes item_nodes (map item_of parts.now)) }
{
    let mut done = ItemTrees::new(alloc);
    let mut at = next;
    'parts: for part in parts {
        let (part, behind) = number_item(alloc, part, at)?;
        done.push(part)?;
        at = behind;
    }
    Ok((done, at))
}

fn number_item(alloc: Global, item: &Item, next: u32) -> Result<(ItemTree, u32), Memory>
    requires fits { next + item_nodes (item_of item.now) ≤ 4294967295 }
    ensures numbered { IfOk result (λ r. item_of r.0 ≡ item_numbered (item_of item.now) next) }
    ensures behind { IfOk result (λ r. r.1 ≡ next + item_nodes (item_of item.now)) }
{
    match item {
        Item::Using(using) => Ok((number_using(alloc, using, next)?, next + 1)),
        Item::Enum(item) => Ok((number_enum(alloc, item, next)?, next + 1)),
        Item::Class(class) => number_class(alloc, class, next),
        Item::Fun(fun) => {
            let (fun, behind) = number_fun(alloc, fun, next)?;
            Ok((ItemTree::function(fun), behind))
        }
    }
}

/// A copy of what a definition begins with, with the number of its node.
fn head(alloc: Global, node: u32, place: Place, name: &Name, specs: &[Spec]) -> Result<Head, Memory>
    ensures node { IfOk result (λ r. r.node ≡ node) }
    ensures place { IfOk result (λ r. r.place ≡ place) }
    ensures name { IfOk result (λ r. r.name ≡ name.now) }
    ensures specs { IfOk result (λ r. r.specs ≡ specs.now) }
{
    let name = copied(alloc, name)?;
    let specs = copied_specs(alloc, specs)?;
    Ok(Head {
        node,
        place,
        name,
        specs,
    })
}

fn number_using(alloc: Global, item: &Using, node: u32) -> Result<ItemTree, Memory>
    ensures { IfOk result (λ r. item_of r ≡
        t.ItemTree.using (using_numbered (using_of item.now) node)) }
{
    let path = copied_path(alloc, item.path.as_slice())?;
    Ok(ItemTree::using(node, item.place, path))
}

fn number_enum(alloc: Global, item: &EnumItem, node: u32) -> Result<ItemTree, Memory>
    ensures { IfOk result (λ r. item_of r ≡
        t.ItemTree.enumeration (enum_numbered (enum_of item.now) node)) }
{
    let values = copied_names(alloc, item.values.as_slice())?;
    let head = head(alloc, node, item.place, &item.name, item.specs.as_slice())?;
    Ok(ItemTree::enumeration(head, values))
}

fn number_class(alloc: Global, class: &ClassItem, next: u32) -> Result<(ItemTree, u32), Memory>
    requires fits { next + class_nodes (class_of class.now) ≤ 4294967295 }
    ensures numbered { IfOk result
        (λ r. item_of r.0 ≡ t.ItemTree.class (class_numbered (class_of class.now) next)) }
    ensures behind { IfOk result (λ r. r.1 ≡ next + class_nodes (class_of class.now)) }
{
    let class_specs = copied_specs(alloc, class.class_specs.as_slice())?;
    let parent = copied_option(alloc, &class.parent)?;
    let (members, node) = number_members(alloc, class.members.as_slice(), next)?;
    let head = head(
        alloc,
        node,
        class.place,
        &class.name,
        class.specs.as_slice(),
    )?;
    Ok((
        ItemTree::class(head, class_specs, parent, members),
        node + 1,
    ))
}

fn number_members(alloc: Global, parts: &[Member], next: u32) -> Result<(MemberTrees, u32), Memory>
    requires fits { next + list_nodes member_nodes (map member_of parts.now) ≤ 4294967295 }
    ensures numbered { IfOk result (λ r. map member_of r.0 ≡
        list_numbered member_numbered member_nodes (map member_of parts.now) next) }
    ensures behind { IfOk result
        (λ r. r.1 ≡ next + list_nodes member_nodes (map member_of parts.now)) }
{
    let mut done = MemberTrees::new(alloc);
    let mut at = next;
    'parts: for part in parts {
        let (part, behind) = number_member(alloc, part, at)?;
        done.push(part)?;
        at = behind;
    }
    Ok((done, at))
}

fn number_member(alloc: Global, member: &Member, next: u32) -> Result<(MemberTree, u32), Memory>
    requires fits { next + member_nodes (member_of member.now) ≤ 4294967295 }
    ensures numbered { IfOk result
        (λ r. member_of r.0 ≡ member_numbered (member_of member.now) next) }
    ensures behind { IfOk result (λ r. r.1 ≡ next + member_nodes (member_of member.now)) }
{
    match member {
        Member::Field(field) => number_field(alloc, field, next),
        Member::Method(fun) => {
            let (fun, behind) = number_fun(alloc, fun, next)?;
            Ok((MemberTree::method(fun), behind))
        }
    }
}

fn number_field(alloc: Global, field: &Field, next: u32) -> Result<(MemberTree, u32), Memory>
    requires fits { next + field_nodes (field_of field.now) ≤ 4294967295 }
    ensures numbered { IfOk result
        (λ r. member_of r.0 ≡ t.MemberTree.field (field_numbered (field_of field.now) next)) }
    ensures behind { IfOk result (λ r. r.1 ≡ next + field_nodes (field_of field.now)) }
{
    let (ty, middle) = number_type(alloc, &field.ty, next)?;
    let (default, node) = number_default(alloc, &field.default, middle)?;
    let var_specs = copied_specs(alloc, field.var_specs.as_slice())?;
    let head = head(
        alloc,
        node,
        field.place,
        &field.name,
        field.specs.as_slice(),
    )?;
    Ok((
        member_field(head, field.is_var, var_specs, ty, default),
        node + 1,
    ))
}

fn number_default(
    alloc: Global,
    default: &Option<Boxed<Expr>>,
    next: u32,
) -> Result<(Option<Tree>, u32), Memory>
    requires fits { next + default_nodes (option_map tree_of default.now) ≤ 4294967295 }
    ensures numbered { IfOk result (λ r. option_map tree_of r.0 ≡
        default_numbered (option_map tree_of default.now) next) }
    ensures behind { IfOk result
        (λ r. r.1 ≡ next + default_nodes (option_map tree_of default.now)) }
{
    match default {
        None => Ok((None, next)),
        Some(value) => {
            let (value, behind) = number(alloc, value.get(), next)?;
            Ok((Some(value), behind))
        }
    }
}

fn number_fun(alloc: Global, fun: &Fun, next: u32) -> Result<(FunTree, u32), Memory>
    requires fits { next + fun_nodes (fun_of fun.now) ≤ 4294967295 }
    ensures numbered { IfOk result (λ r. fun_of r.0 ≡ fun_numbered (fun_of fun.now) next) }
    ensures behind { IfOk result (λ r. r.1 ≡ next + fun_nodes (fun_of fun.now)) }
{
    let (params, first) = number_params(alloc, fun.params.as_slice(), next)?;
    let (ty, second) = number_type(alloc, &fun.result, first)?;
    let (body, node) = number(alloc, fun.body.get(), second)?;
    let effects = copied_specs(alloc, fun.effects.as_slice())?;
    let head = head(alloc, node, fun.place, &fun.name, fun.specs.as_slice())?;
    Ok((FunTree::new(head, params, effects, ty, body), node + 1))
}

fn number_params(alloc: Global, parts: &[Param], next: u32) -> Result<(ParamTrees, u32), Memory>
    requires fits { next + list_nodes param_nodes (map param_of parts.now) ≤ 4294967295 }
    ensures numbered { IfOk result (λ r. map param_of r.0 ≡ list_numbered param_numbered param_nodes
        (map param_of parts.now) next) }
    ensures behind { IfOk result
        (λ r. r.1 ≡ next + list_nodes param_nodes (map param_of parts.now)) }
{
    let mut done = ParamTrees::new(alloc);
    let mut at = next;
    'parts: for part in parts {
        let (part, behind) = number_param(alloc, part, at)?;
        done.push(part)?;
        at = behind;
    }
    Ok((done, at))
}

fn number_param(alloc: Global, param: &Param, next: u32) -> Result<(ParamTree, u32), Memory>
    requires fits { next + param_nodes (param_of param.now) ≤ 4294967295 }
    ensures numbered { IfOk result (λ r. param_of r.0 ≡ param_numbered (param_of param.now) next) }
    ensures behind { IfOk result (λ r. r.1 ≡ next + param_nodes (param_of param.now)) }
{
    let (ty, node) = number_type(alloc, &param.ty, next)?;
    let name = copied(alloc, &param.name)?;
    Ok((ParamTree::new(node, param.place, name, ty), node + 1))
}
