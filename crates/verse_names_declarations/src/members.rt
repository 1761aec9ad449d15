//! Classes with their ancestors, and the members that they have from them.

ghost use Rattle.std.specs.Prelude.{◌≡◌, ◌++◌, ◌∷◌, [], map, IfOk, OnOk, slice_get};
ghost use Rattle.verse_tree.specs.ItemView.{member_of};
ghost use Rattle.verse_rules_types.specs.Types.{classes_of};
ghost use Rattle.verse_names_tables.specs.Views.{roll_of};
ghost use Rattle.verse_names_tables.specs.Names.{call_all, look, place, meanings};
ghost use Rattle.verse_names_tables.specs.Notes.{note_of};
ghost use Rattle.verse_names_declarations.specs.Known.{known_of};
ghost use Rattle.verse_names_declarations.specs.Lines as lines;
ghost use Rattle.verse_names_declarations.specs.Lines.{others, with_member, with_members};
ghost use Rattle.verse_names_declarations.specs.Lines.{with_note, with_function, as_of, bare};
ghost use Rattle.verse_names_declarations.specs.Lines.{fun_numbers, stands};
ghost use Rattle.verse_tree.specs.declared.tables.Ref.TheVariants as ref;
ghost use Rattle.verse_names_declarations.specs.Lines.{members_of, no_members, all_members};
ghost use Rattle.verse_names_declarations.specs.Lines.{member_name};
ghost use Rattle.verse_names_declarations.specs.Lines.{members_view, home_of};

use crate::known::Known;
use shared_list::SharedList;
use sqlite_items::Items;
use std::alloc::Global;
use std::mem::replace;
use std::rc::Rc;
use verse_base::refusals::Memory;
use verse_names_tables::counting::{fun_after, next};
use verse_names_tables::dictionaries::Calls;
use verse_names_tables::indexing::Note;
use verse_names_tables::shared_names::SharedNames;
use verse_rules_types::classes::parent;
use verse_tree::items::Member;
use verse_tree::tables::{ClassInfo, Ref};

/// The names of all fields, each with its place, and of all methods, each with its function.
/// Classes share the names that they have from the same ancestors.
#[derive(Drop)]
pub struct Members<'a> {
    class: u32,
    fields: SharedNames<'a>,
    /// How many fields there are.
    count: u32,
    methods: SharedNames<'a>,
}

/// What a member of a class stands beside: the names of the class itself, and what it inherits.
#[derive(Drop)]
pub struct Home<'a> {
    pub own: Calls<'a>,
    pub above: Members<'a>,
}

/// A class and its ancestors, the root last.
#[tactic(auto, using(crate::proofs::RuleSets::of_line_of))]
pub fn line_of(alloc: Global, outline: &[ClassInfo], class: u32) -> Result<Items<u32>, Memory>
    ensures { IfOk result (λ r. r ≡ lines.line_of (classes_of outline.now) class) }
{
    let mut found = Items::new(alloc);
    let mut at = class;
    'steps: for _i in 0..outline.len() {
        found.push(at)?;
        match parent(outline, at) {
            None => return Ok(found),
            Some(up) => at = up,
        }
    }
    Ok(found)
}

fn push_other(found: &mut Items<u32>, class: u32, at: u32) -> Result<(), Memory>
    ensures { OnOk result (found.new ≡ found.old ++ others class (at ∷ [])) }
{
    if at != class {
        found.push(at)?;
    }
    Ok(())
}

/// The classes from which a class inherits, the nearest first, without the class itself.
#[tactic(auto, using(crate::proofs::RuleSets::of_ancestors))]
fn ancestors(alloc: Global, outline: &[ClassInfo], class: u32) -> Result<Items<u32>, Memory>
    ensures { IfOk result (λ r. r ≡ lines.ancestors (classes_of outline.now) class) }
{
    let mut found = Items::new(alloc);
    let Some(mut at) = parent(outline, class) else {
        return Ok(found);
    };
    'steps: for _i in 0..outline.len() {
        push_other(&mut found, class, at)?;
        match parent(outline, at) {
            None => return Ok(found),
            Some(up) => at = up,
        }
    }
    Ok(found)
}

fn as_function(fun: Option<u32>) -> Option<Ref>
    ensures { result ≡ stands ref.Fun fun }
{
    match fun {
        None => None,
        Some(fun) => Some(Ref::Fun(fun)),
    }
}

impl<'a> Members<'a> {
    /// Of no class, where these names may come.
    pub fn new(alloc: Global, known: Rc<Calls<'a>>) -> Result<Members<'a>, Memory>
        ensures { IfOk result (λ m. members_view m ≡ no_members) }
    {
        let fields = SharedNames::new(alloc, known)?;
        let methods = fields.copy()?;
        Ok(Members {
            class: 0,
            fields,
            count: 0,
            methods,
        })
    }

    /// The same members, as those of this class.
    #[tactic(auto, using(crate::proofs::Membering::fields_moved))]
    pub fn copy(&self, class: u32) -> Result<Members<'a>, Memory>
        ensures view { IfOk result (λ m. members_view m ≡ as_of class (members_view self.now)) }
        ensures class { IfOk result (λ m. m.class ≡ class) }
    {
        Ok(Members {
            class,
            fields: self.fields.copy()?,
            count: self.count,
            methods: self.methods.copy()?,
        })
    }

    /// The field of this name.
    #[tactic(auto, using(crate::proofs::Membering::field_at))]
    pub fn field(&self, name: &[u8]) -> Option<Ref>
        ensures { result ≡ look name.now (members_view self.now).fields }
    {
        self.as_field(self.fields.find(name))
    }

    fn as_field(&self, place: Option<u32>) -> Option<Ref>
        ensures { result ≡ stands (ref.Field self.now.class) place }
    {
        match place {
            None => None,
            Some(place) => Some(Ref::Field(self.class, place)),
        }
    }

    /// The function of the method of this name.
    #[tactic(auto, using(crate::proofs::Membering::method_at))]
    pub fn method(&self, name: &[u8]) -> Option<Ref>
        ensures { result ≡ look name.now (members_view self.now).methods }
    {
        as_function(self.methods.find(name))
    }

    /// Where the method of this name stands among all methods.
    #[tactic(auto, using(crate::proofs::Membering::method_placed))]
    pub fn method_place(&self, name: &[u8]) -> Option<u32>
        ensures { result ≡ place name.now (members_view self.now).methods }
    {
        self.methods.place(name)
    }

    /// What a bare name stands for in a method: the field, or else the method of this name.
    pub fn bare(&self, name: &[u8]) -> Option<Ref>
        ensures { result ≡ bare name.now self.now.class (members_view self.now) }
    {
        if let Some(field) = self.field(name) {
            return Some(field);
        }
        match self.method_place(name) {
            None => None,
            Some(place) => Some(Ref::Method(self.class, place)),
        }
    }

    /// The functions of all methods, in order.
    #[tactic(auto, using(crate::proofs::Membering::functions_are))]
    pub fn functions(&self) -> &SharedList<u32>
        ensures { result.now ≡ fun_numbers (meanings (members_view self.now).methods) }
    {
        self.methods.numbers()
    }

    #[tactic(auto, using(crate::proofs::Membering::field_kept))]
    fn add_field(&mut self, alloc: Global, name: &'a [u8]) -> Result<(), Memory>
        ensures view { OnOk result (members_view self.new ≡
            lines.with_field self.old.class name.now (members_view self.old)) }
        ensures class { OnOk result (self.new.class ≡ self.old.class) }
    {
        let place = self.count;
        self.count = next(place)?;
        let fields = self.fields.kept(alloc, name, place)?;
        let _before = replace(&mut self.fields, fields);
        Ok(())
    }

    #[tactic(auto, using(crate::proofs::Membering::method_put))]
    fn add_method(&mut self, alloc: Global, name: &'a [u8], fun: u32) -> Result<(), Memory>
        ensures view { OnOk result (members_view self.new ≡
            with_function name.now fun (members_view self.old)) }
        ensures class { OnOk result (self.new.class ≡ self.old.class) }
    {
        let methods = self.methods.with(alloc, name, fun)?;
        let _before = replace(&mut self.methods, methods);
        Ok(())
    }

    fn add_member(&mut self, alloc: Global, fun: u32, member: &'a Member) -> Result<(), Memory>
        ensures view { OnOk result (members_view self.new ≡
            with_member self.old.class fun (member_of member.now) (members_view self.old)) }
        ensures class { OnOk result (self.new.class ≡ self.old.class) }
    {
        match member {
            Member::Field(field) => self.add_field(alloc, field.name.as_slice()),
            Member::Method(method) => self.add_method(alloc, method.name.as_slice(), fun),
        }
    }

    /// Adds those of one class, its first method being the function `fun`.
    fn add_members(&mut self, alloc: Global, fun: u32, members: &'a [Member]) -> Result<(), Memory>
        ensures view { OnOk result (members_view self.new ≡
            with_members self.old.class fun (map member_of members.now) (members_view self.old)) }
        ensures class { OnOk result (self.new.class ≡ self.old.class) }
    {
        let mut at = fun;
        'members: for member in members {
            self.add_member(alloc, at, member)?;
            at = fun_after(member, at)?;
        }
        Ok(())
    }

    /// Adds those of the class of this number.
    pub fn add_note(&mut self, alloc: Global, notes: &[Note<'a>], at: u32) -> Result<(), Memory>
        ensures view { OnOk result (members_view self.new ≡
            with_note self.old.class (slice_get (map note_of notes.now) at)
            (members_view self.old)) }
        ensures class { OnOk result (self.new.class ≡ self.old.class) }
    {
        match notes.get(at as usize) {
            None => Ok(()),
            Some(note) => self.add_members(alloc, note.first, note.item.members.as_slice()),
        }
    }
}

/// The members of a list of classes, those of the last class first. The list is emptied.
#[tactic(auto, using(crate::proofs::Climbing::last_notes))]
fn members_of<'a>(
    alloc: Global,
    known: &Known<'a>,
    class: u32,
    line: &mut Items<u32>,
) -> Result<Members<'a>, Memory>
    ensures { IfOk result (λ m. members_view m ≡
        members_of (map note_of known.now.lineage.notes.items) class line.old) }
{
    let mut found = known.lineage.nothing(class)?;
    'classes: while let Some(at) = line.pop() {
        found.add_note(alloc, &known.lineage.notes, at)?;
    }
    Ok(found)
}

/// All members of a class, the root's first.
#[tactic(auto, using(crate::proofs::Descending::all_told_ok))]
pub fn all_members<'a>(alloc: Global, known: &Known<'a>, class: u32) -> Result<Members<'a>, Memory>
    ensures { IfOk result (λ m. members_view m ≡ all_members (known_of known.now) class) }
{
    match known.lineage.descent(class) {
        Some(descent) => descent.members.copy(class),
        None => climbed_members(alloc, known, class),
    }
}

fn climbed_members<'a>(alloc: Global, known: &Known<'a>, class: u32) -> Result<Members<'a>, Memory>
    ensures { IfOk result (λ m. members_view m ≡ all_members (known_of known.now) class) }
{
    let mut line = line_of(alloc, known.lineage.outline.as_slice(), class)?;
    members_of(alloc, known, class, &mut line)
}

/// The members of a class without those of its own.
#[tactic(auto, using(crate::proofs::Descending::of_above))]
fn members_above<'a>(alloc: Global, known: &Known<'a>, class: u32) -> Result<Members<'a>, Memory>
    ensures { IfOk result (λ m. members_view m ≡
        lines.members_above (known_of known.now) class) }
{
    let Some(_own) = known.lineage.descent(class) else {
        return climbed_above(alloc, known, class);
    };
    match parent(known.lineage.outline.as_slice(), class) {
        None => known.lineage.nothing(class),
        Some(up) => match known.lineage.descent(up) {
            None => climbed_above(alloc, known, class),
            Some(descent) => descent.members.copy(class),
        },
    }
}

fn climbed_above<'a>(alloc: Global, known: &Known<'a>, class: u32) -> Result<Members<'a>, Memory>
    ensures { IfOk result (λ m. members_view m ≡
        lines.members_above (known_of known.now) class) }
{
    let mut line = ancestors(alloc, known.lineage.outline.as_slice(), class)?;
    members_of(alloc, known, class, &mut line)
}

/// The name of a member.
pub fn name_of(member: &Member) -> &[u8]
    ensures { result.now ≡ member_name (member_of member.now) }
{
    match member {
        Member::Field(field) => field.name.as_slice(),
        Member::Method(method) => method.name.as_slice(),
    }
}

fn names_of<'a>(alloc: Global, members: &'a [Member]) -> Result<Calls<'a>, Memory>
    ensures { IfOk result (λ r. roll_of r ≡
        call_all (map member_name (map member_of members.now)) []) }
{
    let mut found = Calls::new(alloc);
    'members: for member in members {
        found.call(name_of(member))?;
    }
    Ok(found)
}

/// What the members of a class stand beside.
pub fn make_home<'a>(
    alloc: Global,
    known: &Known<'a>,
    class: u32,
    members: &'a [Member],
) -> Result<Home<'a>, Memory>
    ensures { IfOk result (λ h. home_of h ≡
        lines.home (known_of known.now) class (map member_of members.now)) }
{
    let own = names_of(alloc, members)?;
    let above = members_above(alloc, known, class)?;
    Ok(Home { own, above })
}
