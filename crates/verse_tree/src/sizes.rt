//! The size of a program.

ghost use Rattle.std.specs.Prelude.{◌≡◌, ◌+◌, min, map};
ghost use Rattle.std.specs.Option.{option_map};
ghost use Rattle.verse_tree.specs.View.{tree_of};
ghost use Rattle.verse_tree.specs.ItemView.{item_of, member_of};
ghost use Rattle.verse_tree.specs.Numbering.{list_nodes, program_nodes};
ghost use Rattle.verse_tree.specs.Sizes.{size_of, fields_at, default_fields, member_fields};
ghost use Rattle.verse_tree.specs.Sizes.{item_fields};

use crate::exprs::Expr;
use crate::instance_fields::fields_in;
use crate::items::{Item, Member};
use crate::programs::Program;
use crate::tables::Names;
use sqlite_items::Boxed;

/// 16 for each node and 4 for each field of the class of each instance expression, or the largest
/// number. The class is what the name of the instance stands for; an instance without one counts
/// no field. The count in the tree is that of its nodes, as `join` gives it.
pub fn size(program: &Program) -> u64
    requires counted { program.now.tree.nodes ≡ program_nodes (map item_of program.now.tree.items) }
    ensures { result ≡ min (size_of program.now) 18446744073709551615 }
{
    let fields = fields_in_items(&program.names, program.tree.items.as_slice());
    let nodes = program.tree.nodes as u64;
    (16 * nodes).saturating_add(fields.saturating_mul(4))
}

fn fields_in_items(names: &Names, items: &[Item]) -> u64
    ensures { result ≡ min (list_nodes (item_fields (fields_at names.now)) (map item_of items.now))
        18446744073709551615 }
{
    let mut total = 0u64;
    'items: for item in items {
        total = total.saturating_add(fields_in_item(names, item));
    }
    total
}

fn fields_in_item(names: &Names, item: &Item) -> u64
    ensures { result ≡ min (item_fields (fields_at names.now) (item_of item.now))
        18446744073709551615 }
{
    match item {
        Item::Using(_) => 0,
        Item::Enum(_) => 0,
        Item::Class(class) => fields_in_members(names, class.members.as_slice()),
        Item::Fun(fun) => fields_in(names, fun.body.get()),
    }
}

fn fields_in_members(names: &Names, members: &[Member]) -> u64
    ensures { result ≡ min (list_nodes (member_fields (fields_at names.now))
        (map member_of members.now)) 18446744073709551615 }
{
    let mut total = 0u64;
    'members: for member in members {
        total = total.saturating_add(fields_in_member(names, member));
    }
    total
}

fn fields_in_member(names: &Names, member: &Member) -> u64
    ensures { result ≡ min (member_fields (fields_at names.now) (member_of member.now))
        18446744073709551615 }
{
    match member {
        Member::Field(field) => fields_in_default(names, &field.default),
        Member::Method(fun) => fields_in(names, fun.body.get()),
    }
}

fn fields_in_default(names: &Names, default: &Option<Boxed<Expr>>) -> u64
    ensures { result ≡ min (default_fields (fields_at names.now) (option_map tree_of default.now))
        18446744073709551615 }
{
    match default {
        None => 0,
        Some(value) => fields_in(names, value.get()),
    }
}
