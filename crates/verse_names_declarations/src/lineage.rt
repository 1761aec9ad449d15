//! The members of all classes, made once.

ghost use Rattle.std.specs.Prelude.{◌≡◌, map, slice_get, IfOk, OnOk, IfSome};
ghost use Rattle.std.specs.Option.{option_copied};
ghost use Rattle.verse_rules_types.specs.Types.{classes_of};
ghost use Rattle.verse_names_tables.specs.Notes.{note_of};
ghost use Rattle.verse_names_declarations.specs.Members.{members_view, no_members};
ghost use Rattle.verse_names_declarations.specs.Descents.{Tells, TellsAbove, AreTraced, entry_in};

use crate::descents::{Descent, below, root, with_own};
use crate::members::{Members, name_of};
use sqlite_items::Items;
use std::alloc::Global;
use std::rc::Rc;
use verse_base::refusals::Memory;
use verse_names_tables::counting::next;
use verse_names_tables::dictionaries::Calls;
use verse_names_tables::indexing::Note;
use verse_rules_types::classes::parent;
use verse_tree::items::Member;
use verse_tree::tables::ClassInfo;

/// The classes with their parents, and the members of those from which no circle is come to, each
/// made of those of its parent.
#[derive(Drop)]
pub struct Lineage<'a> {
    /// The classes as they are written, by their numbers.
    pub notes: Vec<Note<'a>>,
    /// The classes with their parents, and without their members.
    pub outline: Items<ClassInfo>,
    nothing: Members<'a>,
    /// By the numbers of the classes.
    made: Vec<Option<Descent<'a>>>,
    /// The classes of which the members are made, parents first.
    order: Items<u32>,
    ghost empty: { members_view nothing ≡ no_members },
    ghost traced: { AreTraced (map note_of notes.items) (classes_of outline) made.items },
}

fn call_names<'a>(found: &mut Calls<'a>, members: &'a [Member]) -> Result<(), Memory> {
    'members: for member in members {
        found.call(name_of(member))?;
    }
    Ok(())
}

/// The names of all members of all classes.
fn all_names<'a>(alloc: Global, notes: &[Note<'a>]) -> Result<Calls<'a>, Memory> {
    let mut found = Calls::new(alloc);
    'notes: for note in notes {
        call_names(&mut found, note.item.members.as_slice())?;
    }
    Ok(found)
}

/// Of so many classes none is made yet.
#[tactic(auto, using(crate::proofs::Descending::none_traced))]
fn nothing_made<'a>(
    alloc: Global,
    notes: &[Note<'a>],
    outline: &[ClassInfo],
) -> Result<Vec<Option<Descent<'a>>>, Memory>
    ensures { IfOk result
        (λ v. AreTraced (map note_of notes.now) (classes_of outline.now) v.items) }
{
    let mut found = Vec::new(alloc);
    'classes: for _i in 0..notes.len() {
        found.push(None)?;
    }
    Ok(found)
}

fn none_tried(alloc: Global, count: usize) -> Result<Vec<bool>, Memory> {
    let mut found = Vec::new(alloc);
    'classes: for _i in 0..count {
        found.push(false)?;
    }
    Ok(found)
}

/// Whether a class is tried for the first time.
fn is_first_try(tried: &mut [bool], class: u32) -> bool {
    match tried.get_mut(class as usize) {
        None => false,
        Some(at) => {
            let first = !*at;
            *at = true;
            first
        }
    }
}

fn entry<'m, 'a>(made: &'m [Option<Descent<'a>>], class: u32) -> Option<&'m Descent<'a>>
    ensures { option_copied result ≡ entry_in (slice_get made.now class) }
{
    match made.get(class as usize) {
        None => None,
        Some(made) => made.as_ref(),
    }
}

fn descent_at<'m, 'a>(
    notes: &[Note<'a>],
    outline: &[ClassInfo],
    made: &'m [Option<Descent<'a>>],
    class: u32,
) -> Option<&'m Descent<'a>>
    requires { AreTraced (map note_of notes.now) (classes_of outline.now) made.now }
    ensures { IfSome result
        (λ d. Tells (map note_of notes.now) (classes_of outline.now) class d.now) }
{
    let _notes = notes.len();
    let _outline = outline.len();
    entry(made, class)
}

/// What a class has from others; None where that is not made.
fn above<'a>(
    notes: &[Note<'a>],
    outline: &[ClassInfo],
    nothing: &Members<'a>,
    made: &[Option<Descent<'a>>],
    class: u32,
) -> Result<Option<Descent<'a>>, Memory>
    requires empty { members_view nothing.now ≡ no_members }
    requires traced { AreTraced (map note_of notes.now) (classes_of outline.now) made.now }
    ensures { IfOk result (λ o. IfSome o
        (TellsAbove (map note_of notes.now) (classes_of outline.now) class)) }
{
    match parent(outline, class) {
        None => root(notes, outline, nothing, class),
        Some(up) => match descent_at(notes, outline, made, up) {
            None => Ok(None),
            Some(descent) => below(notes, outline, up, descent, class),
        },
    }
}

#[tactic(auto, using(crate::proofs::Descending::set_traced))]
fn keep<'a>(
    notes: &[Note<'a>],
    outline: &[ClassInfo],
    made: &mut Vec<Option<Descent<'a>>>,
    class: u32,
    descent: Descent<'a>,
)
    requires traced { AreTraced (map note_of notes.now) (classes_of outline.now) made.old.items }
    requires told { Tells (map note_of notes.now) (classes_of outline.now) class descent }
    ensures { AreTraced (map note_of notes.now) (classes_of outline.now) made.new.items }
{
    let _notes = notes.len();
    let _outline = outline.len();
    let at = class as usize;
    if at < made.len() {
        made[at] = Some(descent);
    }
}

/// Makes the members of a class, where those of its parent are made.
fn make<'a>(
    alloc: Global,
    notes: &[Note<'a>],
    outline: &[ClassInfo],
    nothing: &Members<'a>,
    made: &mut Vec<Option<Descent<'a>>>,
    class: u32,
) -> Result<(), Memory>
    requires empty { members_view nothing.now ≡ no_members }
    requires traced { AreTraced (map note_of notes.now) (classes_of outline.now) made.old.items }
    ensures { OnOk result
        (AreTraced (map note_of notes.now) (classes_of outline.now) made.new.items) }
{
    match above(notes, outline, nothing, made.as_slice(), class)? {
        None => Ok(()),
        Some(above) => {
            let descent = with_own(alloc, notes, outline, above, class)?;
            keep(notes, outline, made, class, descent);
            Ok(())
        }
    }
}

/// The classes that are not made yet from a class up to one that is, or to a root; none where a
/// circle is come to, or was.
fn line_up(
    alloc: Global,
    outline: &[ClassInfo],
    made: &[Option<Descent<'_>>],
    tried: &mut [bool],
    class: u32,
) -> Result<Items<u32>, Memory> {
    let mut line = Items::new(alloc);
    let mut at = class;
    'steps: for _i in 0..outline.len() {
        if is_made(made, at) {
            return Ok(line);
        }
        if !is_first_try(tried, at) {
            return Ok(Items::new(alloc));
        }
        line.push(at)?;
        match parent(outline, at) {
            None => return Ok(line),
            Some(up) => at = up,
        }
    }
    Ok(Items::new(alloc))
}

fn is_made(made: &[Option<Descent<'_>>], class: u32) -> bool {
    match made.get(class as usize) {
        None => false,
        Some(made) => made.is_some(),
    }
}

/// Makes the members of a list of classes, of the last class first. The list is emptied, and
/// `order` says in which order they are made.
fn make_line<'a>(
    alloc: Global,
    notes: &[Note<'a>],
    outline: &[ClassInfo],
    nothing: &Members<'a>,
    made: &mut Vec<Option<Descent<'a>>>,
    line: &mut Items<u32>,
    order: &mut Items<u32>,
) -> Result<(), Memory>
    requires empty { members_view nothing.now ≡ no_members }
    requires traced { AreTraced (map note_of notes.now) (classes_of outline.now) made.old.items }
    ensures { OnOk result
        (AreTraced (map note_of notes.now) (classes_of outline.now) made.new.items) }
{
    'classes: while let Some(class) = line.pop() {
        make(alloc, notes, outline, nothing, made, class)?;
        order.push(class)?;
    }
    Ok(())
}

fn make_all<'a>(
    alloc: Global,
    notes: &[Note<'a>],
    outline: &[ClassInfo],
    nothing: &Members<'a>,
    order: &mut Items<u32>,
) -> Result<Vec<Option<Descent<'a>>>, Memory>
    requires empty { members_view nothing.now ≡ no_members }
    ensures { IfOk result
        (λ v. AreTraced (map note_of notes.now) (classes_of outline.now) v.items) }
{
    let mut made = nothing_made(alloc, notes, outline)?;
    let mut tried = none_tried(alloc, outline.len())?;
    let mut at = 0u32;
    'classes: for _class in outline {
        let mut line = line_up(alloc, outline, &made, &mut tried, at)?;
        make_line(alloc, notes, outline, nothing, &mut made, &mut line, order)?;
        at = next(at)?;
    }
    Ok(made)
}

fn traced<'a>(
    notes: Vec<Note<'a>>,
    outline: Items<ClassInfo>,
    nothing: Members<'a>,
    made: Vec<Option<Descent<'a>>>,
    order: Items<u32>,
) -> Lineage<'a>
    requires empty { members_view nothing ≡ no_members }
    requires traced { AreTraced (map note_of notes.items) (classes_of outline) made.items }
    ensures notes { result.notes ≡ notes.entry }
    ensures outline { result.outline ≡ outline }
{
    Lineage {
        notes,
        outline,
        nothing,
        made,
        order,
    }
}

/// The members of the classes that have no circle above them.
pub fn trace<'a>(
    alloc: Global,
    notes: Vec<Note<'a>>,
    outline: Items<ClassInfo>,
) -> Result<Lineage<'a>, Memory>
    ensures notes { IfOk result (λ l. l.notes ≡ notes.entry) }
    ensures outline { IfOk result (λ l. l.outline ≡ outline) }
{
    let names = Rc::new(alloc, all_names(alloc, &notes)?)?;
    let nothing = Members::new(alloc, names)?;
    let mut order = Items::new(alloc);
    let made = make_all(alloc, &notes, outline.as_slice(), &nothing, &mut order)?;
    Ok(traced(notes, outline, nothing, made, order))
}

impl<'a> Lineage<'a> {
    /// The members of a class and how many classes stand above it, if they are made.
    pub fn descent(&self, class: u32) -> Option<&Descent<'a>>
        ensures { IfSome result (λ d. Tells (map note_of self.now.notes.items)
            (classes_of self.now.outline) class d.now) }
    {
        descent_at(&self.notes, self.outline.as_slice(), &self.made, class)
    }

    /// The classes of which the members are made, parents first.
    pub fn order(&self) -> &[u32] {
        self.order.as_slice()
    }

    /// No members, as those of a class.
    pub fn nothing(&self, class: u32) -> Result<Members<'a>, Memory>
        ensures empty { IfOk result (λ m. members_view m ≡ no_members) }
        ensures class { IfOk result (λ m. m.class ≡ class) }
    {
        self.nothing.copy(class)
    }
}
