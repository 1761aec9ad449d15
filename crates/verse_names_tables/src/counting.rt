//! How functions, classes and enums are numbered.

ghost use Rattle.std.specs.Prelude.{◌≡◌, ◌+◌, map, IfOk};
ghost use Rattle.verse_tree.specs.ItemView.{item_of, member_of};
ghost use Rattle.verse_names_tables.specs.Counting.{fun_after, funs_after, counts_after};
ghost use Rattle.verse_names_tables.specs.Counting.{counted};
ghost use Rattle.verse_names_tables.specs.Counting.{counted_of, no_counts};

use std::alloc::Global;
use verse_base::refusals::Memory;
use verse_tree::items::{Item, Member};

/// How many functions, classes and enums stand before an item. Methods are functions, in the place
/// of their class.
#[derive(Clone, Copy, Debug, PartialEq, Eq)]
pub struct Counts {
    pub funs: u32,
    pub classes: u32,
    pub enums: u32,
}

/// An item, and what stands before it.
#[derive(Drop)]
pub struct Counted<'a> {
    pub item: &'a Item,
    pub before: Counts,
}

/// The next number; more than there are count as want of memory.
pub fn next(number: u32) -> Result<u32, Memory>
    ensures { IfOk result (λ n. n ≡ number + 1) }
{
    match number.checked_add(1) {
        Some(next) => Ok(next),
        None => Err(Memory),
    }
}

/// The number of the function behind a member, from that of the one at it.
pub fn fun_after(member: &Member, number: u32) -> Result<u32, Memory>
    ensures { IfOk result (λ n. n ≡ fun_after (member_of member.now) number) }
{
    match member {
        Member::Field(_) => Ok(number),
        Member::Method(_) => next(number),
    }
}

fn funs_after(members: &[Member], number: u32) -> Result<u32, Memory>
    ensures { IfOk result (λ n. n ≡ funs_after (map member_of members.now) number) }
{
    let mut at = number;
    'members: for member in members {
        at = fun_after(member, at)?;
    }
    Ok(at)
}

fn counts_after(item: &Item, before: Counts) -> Result<Counts, Memory>
    ensures { IfOk result (λ n. n ≡ counts_after (item_of item.now) before) }
{
    let Counts {
        funs,
        classes,
        enums,
    } = before;
    match item {
        Item::Using(_) => Ok(before),
        Item::Enum(_) => Ok(Counts {
            funs,
            classes,
            enums: next(enums)?,
        }),
        Item::Class(class) => Ok(Counts {
            funs: funs_after(class.members.as_slice(), funs)?,
            classes: next(classes)?,
            enums,
        }),
        Item::Fun(_) => Ok(Counts {
            funs: next(funs)?,
            classes,
            enums,
        }),
    }
}

/// The items, each with what stands before it.
#[tactic(auto, using(crate::proofs::Lists::join_next))]
pub fn count_items<'a>(alloc: Global, items: &'a [Item]) -> Result<Vec<Counted<'a>>, Memory>
    ensures { IfOk result (λ r. map counted_of r.items ≡
        counted no_counts (map item_of items.now)) }
{
    let mut found = Vec::new(alloc);
    let mut before = Counts {
        funs: 0,
        classes: 0,
        enums: 0,
    };
    'items: for item in items {
        found.push(Counted { item, before })?;
        before = counts_after(item, before)?;
    }
    Ok(found)
}
