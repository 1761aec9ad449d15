//! What the names of items stand for, and the classes by their numbers.

ghost use Rattle.std.specs.Prelude.{◌≡◌, ◌++◌, map, option_map, IfOk, OnOk};
ghost use Rattle.verse_tree.specs.ItemView.{item_of};
ghost use Rattle.verse_rules_types.specs.Types.{class_of as info, classes_of};
ghost use Rattle.verse_names_tables.specs.Names.{look, keep_named, call_named};
ghost use Rattle.verse_names_tables.specs.Views.{table_of, roll_of};
ghost use Rattle.verse_names_tables.specs.Counting.{counted_of, named_as, named_type_as};
ghost use Rattle.verse_names_tables.specs.Counting.{named_class_as};
ghost use Rattle.verse_names_tables.specs.Indexing.{indexed, index_all, no_index, index_of};
ghost use Rattle.verse_names_tables.specs.Notes.{note_of};
ghost use Rattle.verse_names_tables.specs.Notes.{notes_in, notes};
ghost use Rattle.verse_names_tables.specs.Indexing.{parent_number, outlined};
ghost use Rattle.verse_names_tables.specs.Naming.{named_of};

use crate::counting::{Counted, Counts};
use crate::dictionaries::{Calls, Dict};
use crate::words::has;
use shared_list::SharedList;
use sqlite_items::Items;
use std::alloc::Global;
use verse_base::refusals::Memory;
use verse_tree::fields::FieldList;
use verse_tree::items::{ClassItem, Item};
use verse_tree::names::Name;
use verse_tree::tables::{ClassInfo, Ref};

/// What the names of items stand for; of several items of one name the first counts.
#[derive(Drop)]
pub struct Index<'a> {
    pub items: Dict<'a>,
    /// The names, each with whether another item has it.
    pub repeated: Calls<'a>,
    /// Of the classes and enums.
    pub types: Dict<'a>,
    /// Of the classes.
    pub classes: Dict<'a>,
}

/// A class as it is written, and the number of its first method.
#[derive(Drop)]
pub struct Note<'a> {
    pub item: &'a ClassItem,
    pub first: u32,
}

/// A name and what it stands for.
#[derive(Clone, Copy)]
pub struct Named<'a> {
    pub name: &'a [u8],
    pub to: Ref,
}

fn named_as<'a>(item: &'a Item, at: Counts) -> Option<Named<'a>>
    ensures { option_map named_of result ≡ named_as (item_of item.now) at }
{
    match item {
        Item::Using(_) => None,
        Item::Enum(item) => Some(Named {
            name: item.name.as_slice(),
            to: Ref::Enum(at.enums),
        }),
        Item::Class(item) => Some(Named {
            name: item.name.as_slice(),
            to: Ref::Class(at.classes),
        }),
        Item::Fun(item) => Some(Named {
            name: item.name.as_slice(),
            to: Ref::Fun(at.funs),
        }),
    }
}

fn named_type_as<'a>(item: &'a Item, at: Counts) -> Option<Named<'a>>
    ensures { option_map named_of result ≡ named_type_as (item_of item.now) at }
{
    match item {
        Item::Enum(item) => Some(Named {
            name: item.name.as_slice(),
            to: Ref::Enum(at.enums),
        }),
        Item::Class(item) => Some(Named {
            name: item.name.as_slice(),
            to: Ref::Class(at.classes),
        }),
        Item::Using(_) | Item::Fun(_) => None,
    }
}

fn named_class_as<'a>(item: &'a Item, at: Counts) -> Option<Named<'a>>
    ensures { option_map named_of result ≡ named_class_as (item_of item.now) at }
{
    match item {
        Item::Class(item) => Some(Named {
            name: item.name.as_slice(),
            to: Ref::Class(at.classes),
        }),
        Item::Using(_) | Item::Enum(_) | Item::Fun(_) => None,
    }
}

fn keep_named<'a>(names: &mut Dict<'a>, named: Option<Named<'a>>) -> Result<(), Memory>
    ensures { OnOk result (table_of names.new ≡ keep_named (option_map named_of named.entry)
        (table_of names.old)) }
{
    match named {
        None => Ok(()),
        Some(named) => names.keep(named.name, named.to),
    }
}

fn call_named<'a>(names: &mut Calls<'a>, named: Option<Named<'a>>) -> Result<(), Memory>
    ensures { OnOk result (roll_of names.new ≡ call_named (option_map named_of named.entry)
        (roll_of names.old)) }
{
    match named {
        None => Ok(()),
        Some(named) => names.call(named.name),
    }
}

impl<'a> Index<'a> {
    fn new(alloc: Global) -> Index<'a>
        ensures { index_of result ≡ no_index }
    {
        Index {
            items: Dict::new(alloc),
            repeated: Calls::new(alloc),
            types: Dict::new(alloc),
            classes: Dict::new(alloc),
        }
    }

    fn add(&mut self, item: &Counted<'a>) -> Result<(), Memory>
        ensures { OnOk result (index_of self.new ≡
            indexed (counted_of item.now) (index_of self.old)) }
    {
        let named = named_as(item.item, item.before);
        keep_named(&mut self.items, named)?;
        call_named(&mut self.repeated, named)?;
        keep_named(&mut self.types, named_type_as(item.item, item.before))?;
        keep_named(&mut self.classes, named_class_as(item.item, item.before))
    }
}

/// What the names of the items stand for.
pub fn index_items<'a>(alloc: Global, items: &[Counted<'a>]) -> Result<Index<'a>, Memory>
    ensures { IfOk result (λ r. index_of r ≡ index_all (map counted_of items.now) no_index) }
{
    let mut found = Index::new(alloc);
    'items: for item in items {
        found.add(item)?;
    }
    Ok(found)
}

fn note_class<'a>(found: &mut Vec<Note<'a>>, item: &'a Item, at: Counts) -> Result<(), Memory>
    ensures { OnOk result (map note_of found.new.items ≡ map note_of found.old.items ++
        notes_in (item_of item.now) at) }
{
    match item {
        Item::Class(item) => {
            found.push(Note {
                item,
                first: at.funs,
            })?;
            Ok(())
        }
        Item::Using(_) | Item::Enum(_) | Item::Fun(_) => Ok(()),
    }
}

/// The classes, by their numbers.
pub fn note_classes<'a>(alloc: Global, items: &[Counted<'a>]) -> Result<Vec<Note<'a>>, Memory>
    ensures { IfOk result (λ r. map note_of r.items ≡ notes (map counted_of items.now)) }
{
    let mut found = Vec::new(alloc);
    'items: for item in items {
        note_class(&mut found, item.item, item.before)?;
    }
    Ok(found)
}

fn parent_number(classes: &Dict, parent: &Option<Name>) -> Option<u32>
    ensures { result ≡ parent_number (table_of classes.now) parent.now }
{
    match parent {
        None => None,
        Some(name) => match classes.find(name.as_slice()) {
            Some(Ref::Class(class)) => Some(class),
            _ => None,
        },
    }
}

fn outlined(classes: &Dict, note: &Note) -> ClassInfo
    ensures { info result ≡ outlined (table_of classes.now) (note_of note.now) }
{
    ClassInfo {
        parent: parent_number(classes, &note.item.parent),
        is_unique: has(note.item.class_specs.as_slice(), b"unique"),
        fields: FieldList::new(),
        methods: SharedList::new(),
    }
}

/// The classes with their parents, and without their members.
pub fn outline(alloc: Global, classes: &Dict, notes: &[Note]) -> Result<Items<ClassInfo>, Memory>
    ensures { IfOk result (λ r. classes_of r ≡
        map (outlined (table_of classes.now)) (map note_of notes.now)) }
{
    let mut found = Items::new(alloc);
    'notes: for note in notes {
        found.push(outlined(classes, note))?;
    }
    Ok(found)
}
