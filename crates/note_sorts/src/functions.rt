//! What notes say of functions.

ghost use Rattle.std.specs.Prelude.{◌≡◌, ◌++◌, Some, None, IfOk, OnOk, map, slice_get};
ghost use Rattle.verse_tree.specs.ItemView.{item_of, member_of};
ghost use Rattle.lower_notes.specs.Programs.{with_this, signed};
ghost use Rattle.verse_verify_notes.specs.View.{sorts_of, func_of};
ghost use Rattle.note_sorts.specs.Tabled.{made_sort, lasts, signature_of, found_of};
ghost use Rattle.note_sorts.specs.Owning.{owners, member_owners, members_owners, item_owners};
ghost use Rattle.note_sorts.specs.Owning.{classes_behind, flat};

use crate::types;
use lower_code::arounds::next;
use std::alloc::Global;
use verse_base::refusals::Memory;
use verse_tree::items::{Item, Member};
use verse_tree::programs::Program;
use verse_tree::tables::{Effects, FunInfo, Ty};
use verse_verify_notes::notes::FuncNote;
use verse_verify_notes::sorts::Sort;

fn add_member(found: &mut Vec<Option<u32>>, class: u32, member: &Member) -> Result<(), Memory>
    ensures { OnOk result (found.new.items ≡
        found.old.items ++ member_owners class (member_of member.now)) }
{
    match member {
        Member::Field(_) => Ok(()),
        Member::Method(_) => {
            found.push(Some(class))?;
            Ok(())
        }
    }
}

fn add_members(found: &mut Vec<Option<u32>>, class: u32, members: &[Member]) -> Result<(), Memory>
    ensures { OnOk result (found.new.items ≡
        found.old.items ++ members_owners class (map member_of members.now)) }
{
    'members: for member in members {
        add_member(found, class, member)?;
    }
    Ok(())
}

fn add_item(found: &mut Vec<Option<u32>>, class: u32, item: &Item) -> Result<(), Memory>
    ensures { OnOk result (found.new.items ≡
        found.old.items ++ item_owners class (item_of item.now)) }
{
    match item {
        Item::Using(_) | Item::Enum(_) => Ok(()),
        Item::Class(item) => add_members(found, class, item.members.as_slice()),
        Item::Fun(_) => {
            found.push(None)?;
            Ok(())
        }
    }
}

/// How many classes stand behind an item, so many of them before it.
fn class_behind(item: &Item, class: u32) -> Result<u32, Memory>
    ensures { IfOk result (λ n. n ≡ classes_behind (item_of item.now) class) }
{
    match item {
        Item::Class(_) => Ok(next(class)?),
        Item::Using(_) | Item::Enum(_) | Item::Fun(_) => Ok(class),
    }
}

/// The classes of functions and methods, by the numbers of these.
pub fn owners(alloc: Global, items: &[Item]) -> Result<Vec<Option<u32>>, Memory>
    ensures { IfOk result (λ r. r.items ≡ owners (map item_of items.now)) }
{
    let mut found = Vec::new(alloc);
    let mut class = 0u32;
    'items: for item in items {
        add_item(&mut found, class, item)?;
        class = class_behind(item, class)?;
    }
    Ok(found)
}

/// Whether a call can wait, or cannot be undone.
fn does_last(effects: Effects) -> bool
    ensures { result ≡ lasts effects }
{
    effects.suspends || !(effects.computes || effects.transacts)
}

/// The sorts of parameters, behind that of the object of a method.
fn params(alloc: Global, this: Option<u32>, types: &[Ty]) -> Result<Vec<Sort>, Memory>
    ensures { IfOk result (λ r. sorts_of r.items ≡ with_this this (map made_sort types.now)) }
{
    let Some(class) = this else {
        return Ok(types::sorts_of(alloc, types)?);
    };
    let mut sorts = Vec::new(alloc);
    sorts.push(Sort::Object(class))?;
    'types: for ty in types {
        sorts.push(types::sort_of(alloc, ty)?)?;
    }
    Ok(sorts)
}

fn known(alloc: Global, this: Option<u32>, fun: &FunInfo) -> Result<FuncNote, Memory>
    ensures { IfOk result (λ r. func_of r ≡ signed (signature_of (Some fun.now) this)) }
{
    Ok(FuncNote {
        params: params(alloc, this, fun.params.as_slice())?,
        result: types::sort_of(alloc, &fun.result)?,
        may_fail: fun.effects.decides,
        may_wait: does_last(fun.effects),
    })
}

fn unknown(alloc: Global, this: Option<u32>) -> Result<FuncNote, Memory>
    ensures { IfOk result (λ r. func_of r ≡ signed (signature_of None this)) }
{
    Ok(FuncNote {
        params: params(alloc, this, &[])?,
        result: Sort::Any,
        may_fail: false,
        may_wait: false,
    })
}

/// The class of a function, which has this number.
fn owner(owners: &[Option<u32>], function: u32) -> Option<u32>
    ensures { result ≡ flat (slice_get owners.now function) }
{
    match owners.get(function as usize) {
        None => None,
        Some(class) => *class,
    }
}

/// What notes say of a function or a method, by its number and the classes of all of them.
#[tactic(auto, unfolding(crate::specs::Tabled::found_of))]
pub fn fun_note(
    alloc: Global,
    program: &Program,
    classes: &[Option<u32>],
    function: u32,
) -> Result<FuncNote, Memory>
    requires { classes.now ≡ owners (map item_of program.now.tree.items) }
    ensures { IfOk result (λ r. func_of r ≡ signed ((found_of program.now).signature function)) }
{
    let this = owner(classes, function);
    match program.names.funs.get(function as usize) {
        None => Ok(unknown(alloc, this)?),
        Some(fun) => Ok(known(alloc, this, fun)?),
    }
}
