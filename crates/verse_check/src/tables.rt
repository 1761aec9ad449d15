//! The names of the members of classes and of the values of enums.

ghost use Rattle.std.specs.Prelude.{◌≡◌, ◌++◌, [], map, IfOk, OnOk};
ghost use Rattle.verse_tree.specs.ItemView.{item_of};
ghost use Rattle.verse_names_declarations.specs.Known.{known, known_of};
ghost use Rattle.verse_names_declarations.specs.Lines.{members_view};
ghost use Rattle.verse_check_typing.specs.Facts as f;
ghost use Rattle.verse_check_typing.specs.Sets.{with_names};
ghost use Rattle.verse_check_typing.specs.Views.{names_of};

use std::alloc::Global;
use verse_base::refusals::Memory;
use verse_check_typing::sets::NameSet;
use verse_names_declarations::known::{Known, know};
use verse_names_declarations::members::{Members, all_members};
use verse_names_tables::counting::next;
use verse_tree::items::Item;
use verse_tree::names::Name;

/// The names of the members of all classes, by the numbers of the classes.
fn class_members<'a>(alloc: Global, known: &Known<'a>) -> Result<Vec<Members<'a>>, Memory>
    ensures { IfOk result (λ r. map members_view r.items ≡ f.class_members (known_of known.now)) }
{
    let mut found = Vec::new(alloc);
    let mut at = 0u32;
    'classes: for _class in known.lineage.outline.as_slice() {
        found.push(all_members(alloc, known, at)?)?;
        at = next(at)?;
    }
    Ok(found)
}

fn value_names<'a>(alloc: Global, values: &'a [Name]) -> Result<NameSet<'a>, Memory>
    ensures { IfOk result (λ s. names_of s ≡ with_names values.now []) }
{
    let mut found = NameSet::new(alloc);
    'values: for value in values {
        found.add(value.as_slice())?;
    }
    Ok(found)
}

fn add_values<'a>(alloc: Global, found: &mut Vec<NameSet<'a>>, item: &'a Item) -> Result<(), Memory>
    ensures { OnOk result (map names_of found.new.items ≡ map names_of found.old.items ++
        f.item_values (item_of item.now)) }
{
    match item {
        Item::Enum(item) => {
            found.push(value_names(alloc, item.values.as_slice())?)?;
            Ok(())
        }
        Item::Using(_) | Item::Class(_) | Item::Fun(_) => Ok(()),
    }
}

/// The names of the values of all enums, by the numbers of the enums.
fn enum_values<'a>(alloc: Global, items: &'a [Item]) -> Result<Vec<NameSet<'a>>, Memory>
    ensures { IfOk result (λ r. map names_of r.items ≡ f.enum_values (map item_of items.now)) }
{
    let mut found = Vec::new(alloc);
    'items: for item in items {
        add_values(alloc, &mut found, item)?;
    }
    Ok(found)
}

/// The names of the members of all classes and of the values of all enums of a program.
pub struct Tables<'a> {
    pub members: Vec<Members<'a>>,
    pub values: Vec<NameSet<'a>>,
}

impl<'a> Drop for Tables<'a> {
    fn drop(self) {
        let Self {
            members: _,
            values: _,
        } = self;
    }
}

impl<'a> Tables<'a> {
    /// By the numbers of the classes.
    pub fn members(&self) -> &[Members<'a>]
        ensures { map members_view result.now ≡ map members_view self.now.members.items }
    {
        self.members.as_slice()
    }

    /// By the numbers of the enums.
    pub fn values(&self) -> &[NameSet<'a>]
        ensures { map names_of result.now ≡ map names_of self.now.values.items }
    {
        self.values.as_slice()
    }
}

/// The names of the members of all classes and of the values of all enums of a program.
pub fn make_tables<'a>(alloc: Global, items: &'a [Item]) -> Result<Tables<'a>, Memory>
    ensures members { IfOk result (λ t. map members_view t.members.items ≡
        f.class_members (known (map item_of items.now))) }
    ensures values { IfOk result (λ t. map names_of t.values.items ≡
        f.enum_values (map item_of items.now)) }
{
    let known = know(alloc, items)?;
    let members = class_members(alloc, &known)?;
    let values = enum_values(alloc, items)?;
    Ok(Tables { members, values })
}
