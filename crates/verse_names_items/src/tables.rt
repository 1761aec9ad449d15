//! The tables of functions, classes and enums.

ghost use Rattle.std.specs.Prelude.{◌≡◌, ◌++◌, ◌+◌, [], map, length, option_map, IfOk, OnOk};
ghost use Rattle.std.specs.Prelude.{IfSome, slice_get};
ghost use Rattle.verse_tree.specs.View.{tree_of};
ghost use Rattle.verse_tree.specs.ItemView.{member_of, item_of};
ghost use Rattle.verse_tree.specs.ItemView as view;
ghost use Rattle.verse_rules_types.specs.Types.{field_of, class_of, classes_of};
ghost use Rattle.verse_names_tables.specs.Views.{table_of};
ghost use Rattle.verse_names_tables.specs.Notes.{note_of};
ghost use Rattle.verse_names_declarations.specs.Known.{known_of};
ghost use Rattle.verse_names_items.specs.Tables as tables;
ghost use Rattle.verse_names_items.specs.Making.{FieldsTold, FieldsAbove, AreMade};

use shared_list::SharedList;
use sqlite_items::{Boxed, Items};
use std::alloc::Global;
use verse_base::refusals::Memory;
use verse_names_declarations::known::Known;
use verse_names_declarations::members::{all_members, line_of};
use verse_names_tables::counting::next;
use verse_names_tables::dictionaries::Dict;
use verse_names_tables::functions::spelled;
use verse_names_tables::indexing::Note;
use verse_rules_types::classes::parent;
use verse_tree::exprs::Expr;
use verse_tree::fields::FieldList;
use verse_tree::items::{EnumItem, Field, Item, Member};
use verse_tree::tables::{ClassInfo, EnumInfo, FieldInfo, FunInfo};

/// What a program's items define, by numbers.
#[derive(Drop)]
pub struct Tables {
    /// Functions and methods.
    pub functions: Items<FunInfo>,
    pub classes: Items<ClassInfo>,
    pub enums: Items<EnumInfo>,
}

fn default_number(default: &Option<Boxed<Expr>>) -> Option<u32>
    ensures { result ≡ option_map tables.tree_number (option_map tree_of default.now) }
{
    match default {
        None => None,
        Some(value) => Some(value.get().node),
    }
}

fn field_info(alloc: Global, types: &Dict, field: &Field) -> Result<FieldInfo, Memory>
    ensures { IfOk result (λ f. field_of f ≡ tables.field_info (table_of types.now)
        (view.field_of field.now)) }
{
    let ty = spelled(alloc, types, &field.ty)?;
    Ok(FieldInfo {
        ty,
        is_var: field.is_var,
        default: default_number(&field.default),
    })
}

fn with_field(
    alloc: Global,
    types: &Dict,
    fields: FieldList,
    member: &Member,
) -> Result<FieldList, Memory>
    ensures { IfOk result (λ r. map field_of r ≡ map field_of fields ++
        tables.member_fields (table_of types.now) (member_of member.now)) }
{
    match member {
        Member::Field(field) => Ok(fields.pushed(alloc, field_info(alloc, types, field)?)?),
        Member::Method(_) => Ok(fields),
    }
}

/// The fields, and behind them those among the members.
fn with_fields(
    alloc: Global,
    types: &Dict,
    fields: FieldList,
    members: &[Member],
) -> Result<FieldList, Memory>
    ensures { IfOk result (λ r. map field_of r ≡ map field_of fields ++
        tables.own_fields (table_of types.now) (map member_of members.now)) }
{
    let mut found = fields;
    'members: for member in members {
        found = with_field(alloc, types, found, member)?;
    }
    Ok(found)
}

fn members_at<'a>(notes: &[Note<'a>], at: u32) -> &'a [Member]
    ensures { map member_of result.now ≡
        tables.note_members (slice_get (map note_of notes.now) at) }
{
    match notes.get(at as usize) {
        None => &[],
        Some(note) => note.item.members.as_slice(),
    }
}

/// The fields of a list of classes, those of the last class first. The list is emptied.
fn fields_of(
    alloc: Global,
    types: &Dict,
    notes: &[Note],
    line: &mut Items<u32>,
) -> Result<FieldList, Memory>
    ensures { IfOk result (λ r. map field_of r ≡
        tables.fields_of (table_of types.now) (map note_of notes.now) line.old) }
{
    let mut found = FieldList::new();
    'classes: while let Some(at) = line.pop() {
        found = with_fields(alloc, types, found, members_at(notes, at))?;
    }
    Ok(found)
}

fn climbed_fields(alloc: Global, known: &Known, class: u32) -> Result<FieldList, Memory>
    ensures { IfOk result (λ r. map field_of r ≡ tables.class_fields (known_of known.now) class) }
{
    let mut line = line_of(alloc, known.lineage.outline.as_slice(), class)?;
    fields_of(alloc, &known.index.types, &known.lineage.notes, &mut line)
}

/// Of so many classes the fields are not made yet.
#[tactic(auto, using(crate::proofs::Making::none_made))]
fn no_fields(alloc: Global, known: &Known) -> Result<Vec<Option<FieldList>>, Memory>
    ensures { IfOk result (λ v. AreMade (known_of known.now) v.items) }
{
    let mut made = Vec::new(alloc);
    'classes: for _i in 0..known.lineage.outline.len() {
        made.push(None)?;
    }
    Ok(made)
}

/// The fields of a class, if they are made.
#[tactic(auto, using(crate::proofs::Making::made_at))]
fn find_fields<'m>(
    known: &Known,
    made: &'m [Option<FieldList>],
    class: u32,
) -> Option<&'m FieldList>
    requires { AreMade (known_of known.now) made.now }
    ensures { IfSome result (λ f. FieldsTold (known_of known.now) class f.now) }
{
    let _functions = known.functions.len();
    match made.get(class as usize) {
        Some(Some(fields)) => Some(fields),
        _ => None,
    }
}

/// The fields that a class has from others; none where they are not made.
#[tactic(auto, using(crate::proofs::Making::root_told, crate::proofs::Making::below_told))]
fn fields_above(
    known: &Known,
    made: &[Option<FieldList>],
    class: u32,
) -> Result<Option<FieldList>, Memory>
    requires { AreMade (known_of known.now) made.now }
    ensures { IfOk result (λ o. IfSome o (FieldsAbove (known_of known.now) class)) }
{
    let Some(_descent) = known.lineage.descent(class) else {
        return Ok(None);
    };
    match parent(known.lineage.outline.as_slice(), class) {
        None => Ok(Some(FieldList::new())),
        Some(up) => match find_fields(known, made, up) {
            None => Ok(None),
            Some(fields) => Ok(Some(fields.copy()?)),
        },
    }
}

#[tactic(auto, using(crate::proofs::Making::own_told))]
fn with_own(alloc: Global, known: &Known, above: FieldList, class: u32) -> Result<FieldList, Memory>
    requires { FieldsAbove (known_of known.now) class above }
    ensures { IfOk result (FieldsTold (known_of known.now) class) }
{
    let members = members_at(&known.lineage.notes, class);
    with_fields(alloc, &known.index.types, above, members)
}

#[tactic(auto, using(crate::proofs::Making::set_made))]
fn keep_fields(known: &Known, made: &mut Vec<Option<FieldList>>, class: u32, fields: FieldList)
    requires made { AreMade (known_of known.now) made.old.items }
    requires told { FieldsTold (known_of known.now) class fields }
    ensures { AreMade (known_of known.now) made.new.items }
{
    let _functions = known.functions.len();
    let at = class as usize;
    if at < made.len() {
        made[at] = Some(fields);
    }
}

/// Makes the fields of a class, where those of its parent are made.
fn make_class(
    alloc: Global,
    known: &Known,
    made: &mut Vec<Option<FieldList>>,
    class: u32,
) -> Result<(), Memory>
    requires { AreMade (known_of known.now) made.old.items }
    ensures { OnOk result (AreMade (known_of known.now) made.new.items) }
{
    match fields_above(known, made.as_slice(), class)? {
        None => Ok(()),
        Some(above) => {
            let fields = with_own(alloc, known, above, class)?;
            keep_fields(known, made, class, fields);
            Ok(())
        }
    }
}

/// The fields of the classes that have no circle above them, by the numbers of the classes.
fn make_fields(alloc: Global, known: &Known) -> Result<Vec<Option<FieldList>>, Memory>
    ensures { IfOk result (λ v. AreMade (known_of known.now) v.items) }
{
    let mut made = no_fields(alloc, known)?;
    'classes: for class in known.lineage.order() {
        make_class(alloc, known, &mut made, *class)?;
    }
    Ok(made)
}

#[tactic(auto, using(crate::proofs::Making::all_told))]
fn all_fields(
    alloc: Global,
    known: &Known,
    made: &[Option<FieldList>],
    class: u32,
) -> Result<FieldList, Memory>
    requires { AreMade (known_of known.now) made.now }
    ensures { IfOk result (λ r. map field_of r ≡ tables.class_fields (known_of known.now) class) }
{
    match find_fields(known, made, class) {
        Some(fields) => Ok(fields.copy()?),
        None => climbed_fields(alloc, known, class),
    }
}

fn methods_of(alloc: Global, known: &Known, class: u32) -> Result<SharedList<u32>, Memory>
    ensures { IfOk result (λ r. r ≡ tables.methods_of (known_of known.now) class) }
{
    let members = all_members(alloc, known, class)?;
    Ok(members.functions().copy()?)
}

fn class_table(
    alloc: Global,
    known: &Known,
    made: &[Option<FieldList>],
    class: u32,
    outline: &ClassInfo,
) -> Result<ClassInfo, Memory>
    requires { AreMade (known_of known.now) made.now }
    ensures { IfOk result (λ r. class_of r ≡ tables.class_table (known_of known.now) class
        (class_of outline.now)) }
{
    let fields = all_fields(alloc, known, made, class)?;
    let methods = methods_of(alloc, known, class)?;
    Ok(ClassInfo {
        parent: outline.parent,
        is_unique: outline.is_unique,
        fields,
        methods,
    })
}

/// All classes, by their numbers. Where classes inherit in a circle, each has as many fields as
/// there are classes times those of the circle.
pub fn class_tables(alloc: Global, known: &Known) -> Result<Items<ClassInfo>, Memory>
    ensures { IfOk result (λ r. classes_of r ≡ tables.class_tables (known_of known.now)) }
{
    let made = make_fields(alloc, known)?;
    let mut found = Items::new(alloc);
    let mut at = 0u32;
    'classes: for outline in known.lineage.outline.as_slice() {
        found.push(class_table(alloc, known, &made, at, outline)?)?;
        at = next(at)?;
    }
    Ok(found)
}

fn enum_info(item: &EnumItem) -> Result<EnumInfo, Memory>
    ensures { IfOk result (λ r. r ≡ tables.enum_info (view.enum_of item.now)) }
{
    match u32::try_from(item.values.len()) {
        Ok(count) => Ok(EnumInfo { count }),
        Err(_) => Err(Memory),
    }
}

fn add_enum(found: &mut Items<EnumInfo>, item: &Item) -> Result<(), Memory>
    ensures { OnOk result (found.new ≡ found.old ++ tables.enum_table (item_of item.now)) }
{
    match item {
        Item::Enum(item) => {
            found.push(enum_info(item)?)?;
            Ok(())
        }
        Item::Using(_) | Item::Class(_) | Item::Fun(_) => Ok(()),
    }
}

/// All enums, by their numbers.
pub fn enum_tables(alloc: Global, items: &[Item]) -> Result<Items<EnumInfo>, Memory>
    ensures { IfOk result (λ r. r ≡ tables.enum_tables (map item_of items.now)) }
{
    let mut found = Items::new(alloc);
    'items: for item in items {
        add_enum(&mut found, item)?;
    }
    Ok(found)
}
