//! What is known of the items of a program before its bodies are looked at.

ghost use Rattle.std.specs.Prelude.{◌≡◌, ◌++◌, map, IfOk, OnOk};
ghost use Rattle.verse_tree.specs.ItemView.{item_of, member_of};
ghost use Rattle.verse_names_tables.specs.Views.{table_of};
ghost use Rattle.verse_names_tables.specs.Functions.{function_of};
ghost use Rattle.verse_names_tables.specs.Counting.{counted_of};
ghost use Rattle.verse_names_declarations.specs.Known.{member_functions, members_functions};
ghost use Rattle.verse_names_declarations.specs.Known.{item_functions};
ghost use Rattle.verse_names_declarations.specs.Known.{functions, known, known_of};

use crate::lineage::{Lineage, trace};
use sqlite_items::Items;
use std::alloc::Global;
use verse_base::refusals::Memory;
use verse_names_tables::counting::{Counted, count_items};
use verse_names_tables::dictionaries::Dict;
use verse_names_tables::functions::function;
use verse_names_tables::indexing::{Index, index_items, note_classes, outline};
use verse_tree::items::{Item, Member};
use verse_tree::tables::FunInfo;

/// What is known of the items.
#[derive(Drop)]
pub struct Known<'a> {
    pub items: Vec<Counted<'a>>,
    pub index: Index<'a>,
    /// All functions and methods, by their numbers.
    pub functions: Items<FunInfo>,
    /// The classes, with their parents and members.
    pub lineage: Lineage<'a>,
}

fn add_member(
    alloc: Global,
    types: &Dict,
    found: &mut Items<FunInfo>,
    member: &Member,
) -> Result<(), Memory>
    ensures { OnOk result (map function_of found.new ≡ map function_of found.old ++
        member_functions (table_of types.now) (member_of member.now)) }
{
    match member {
        Member::Field(_) => Ok(()),
        Member::Method(fun) => {
            found.push(function(alloc, types, fun)?)?;
            Ok(())
        }
    }
}

fn add_members(
    alloc: Global,
    types: &Dict,
    found: &mut Items<FunInfo>,
    members: &[Member],
) -> Result<(), Memory>
    ensures { OnOk result (map function_of found.new ≡ map function_of found.old ++
        members_functions (table_of types.now) (map member_of members.now)) }
{
    'members: for member in members {
        add_member(alloc, types, found, member)?;
    }
    Ok(())
}

fn add_item(
    alloc: Global,
    types: &Dict,
    found: &mut Items<FunInfo>,
    item: &Item,
) -> Result<(), Memory>
    ensures { OnOk result (map function_of found.new ≡ map function_of found.old ++
        item_functions (table_of types.now) (item_of item.now)) }
{
    match item {
        Item::Using(_) | Item::Enum(_) => Ok(()),
        Item::Class(class) => add_members(alloc, types, found, class.members.as_slice()),
        Item::Fun(fun) => {
            found.push(function(alloc, types, fun)?)?;
            Ok(())
        }
    }
}

fn functions(alloc: Global, types: &Dict, items: &[Counted]) -> Result<Items<FunInfo>, Memory>
    ensures { IfOk result (λ r. map function_of r ≡
        functions (table_of types.now) (map counted_of items.now)) }
{
    let mut found = Items::new(alloc);
    'items: for item in items {
        add_item(alloc, types, &mut found, item.item)?;
    }
    Ok(found)
}

/// What is known of the items.
pub fn know<'a>(alloc: Global, items: &'a [Item]) -> Result<Known<'a>, Memory>
    ensures { IfOk result (λ k. known_of k ≡ known (map item_of items.now)) }
{
    let items = count_items(alloc, items)?;
    let index = index_items(alloc, &items)?;
    let notes = note_classes(alloc, &items)?;
    let outline = outline(alloc, &index.classes, &notes)?;
    let functions = functions(alloc, &index.types, &items)?;
    let lineage = trace(alloc, notes, outline)?;
    Ok(Known {
        items,
        index,
        functions,
        lineage,
    })
}
