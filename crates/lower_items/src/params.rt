//! How many parameters functions have.

ghost use Rattle.std.specs.Prelude.{◌≡◌, [], map, IfOk, OnOk, slice_get};
ghost use Rattle.verse_tree.specs.ItemView.{item_of, member_of, fun_of};
ghost use Rattle.lower_items.specs.Noted as n;
ghost use Rattle.lower_items.specs.Noted.{entries_of};
ghost use Rattle.lower_items.specs.Params.{count_at, found_at, is_count};

use crate::noted::Noted;
use std::alloc::Global;
use verse_base::refusals::Memory;
use verse_tree::items::{Fun, Item, Member};
use verse_tree::tables::FunInfo;

fn note_fun(found: &mut Noted, fun: &Fun) -> Result<(), Memory>
    ensures { OnOk result (entries_of found.new ≡
        n.fun_noted (fun_of fun.now) (entries_of found.old)) }
{
    found.keep(fun.node, fun.params.len())
}

fn note_member(found: &mut Noted, member: &Member) -> Result<(), Memory>
    ensures { OnOk result (entries_of found.new ≡
        n.member_noted (member_of member.now) (entries_of found.old)) }
{
    match member {
        Member::Field(_) => Ok(()),
        Member::Method(fun) => note_fun(found, fun),
    }
}

fn note_members(found: &mut Noted, members: &[Member]) -> Result<(), Memory>
    ensures { OnOk result (entries_of found.new ≡
        n.members_noted (map member_of members.now) (entries_of found.old)) }
{
    'members: for member in members {
        note_member(found, member)?;
    }
    Ok(())
}

fn note_item(found: &mut Noted, item: &Item) -> Result<(), Memory>
    ensures { OnOk result (entries_of found.new ≡
        n.item_noted (item_of item.now) (entries_of found.old)) }
{
    match item {
        Item::Using(_) | Item::Enum(_) => Ok(()),
        Item::Class(class) => note_members(found, class.members.as_slice()),
        Item::Fun(fun) => note_fun(found, fun),
    }
}

fn note_items(found: &mut Noted, items: &[Item]) -> Result<(), Memory>
    ensures { OnOk result (entries_of found.new ≡
        n.items_noted (map item_of items.now) (entries_of found.old)) }
{
    'items: for item in items {
        note_item(found, item)?;
    }
    Ok(())
}

fn found_all(alloc: Global, noted: &Noted, infos: &[FunInfo]) -> Result<Vec<Option<usize>>, Memory>
    ensures { IfOk result (λ r. r.items ≡ map (found_at (entries_of noted.now)) infos.now) }
{
    let mut found = Vec::new(alloc);
    'infos: for info in infos {
        found.push(noted.find(info.item))?;
    }
    Ok(found)
}

/// The number of parameters of each function of a table.
#[tactic(auto, using(crate::proofs::Noting::found_is))]
pub fn counts(
    alloc: Global,
    items: &[Item],
    infos: &[FunInfo],
) -> Result<Vec<Option<usize>>, Memory>
    ensures { IfOk result (λ r. r.items ≡ map (count_at (map item_of items.now)) infos.now) }
{
    let mut noted = Noted::new(alloc);
    note_items(&mut noted, items)?;
    found_all(alloc, &noted, infos)
}

/// Whether the function of a number has so many parameters.
pub fn is_count(counts: &[Option<usize>], function: u32, count: usize) -> bool
    ensures { result ≡ is_count (slice_get counts.now function) count }
{
    match counts.get(function as usize) {
        Some(Some(params)) => *params == count,
        _ => false,
    }
}
