//! The members of a class with how many classes stand above it.

ghost use Rattle.std.specs.Prelude.{◌≡◌, map, IfOk, IfSome, None, Some};
ghost use Rattle.verse_rules_types.specs.Types.{classes_of};
ghost use Rattle.verse_rules_types.specs.Fitting.{parent_of};
ghost use Rattle.verse_names_tables.specs.Notes.{note_of};
ghost use Rattle.verse_names_declarations.specs.Members.{members_view, no_members};
ghost use Rattle.verse_names_declarations.specs.Descents.{Tells, TellsAbove};

use crate::members::Members;
use std::alloc::Global;
use verse_base::refusals::Memory;
use verse_names_tables::indexing::Note;
use verse_tree::tables::ClassInfo;

/// Members of a class, and how many classes stand above it.
#[derive(Drop)]
pub struct Descent<'a> {
    pub depth: usize,
    pub members: Members<'a>,
}

/// What a class has from others that has no parent: nothing. None where there are no classes.
#[tactic(auto, using(crate::proofs::Descending::root_tells))]
pub fn root<'a>(
    notes: &[Note<'a>],
    outline: &[ClassInfo],
    nothing: &Members<'a>,
    class: u32,
) -> Result<Option<Descent<'a>>, Memory>
    requires empty { members_view nothing.now ≡ no_members }
    requires root { parent_of (classes_of outline.now) class ≡ None }
    ensures { IfOk result (λ o. IfSome o
        (TellsAbove (map note_of notes.now) (classes_of outline.now) class)) }
{
    let _notes = notes.len();
    if outline.len() < 1 {
        return Ok(None);
    }
    Ok(Some(Descent {
        depth: 0,
        members: nothing.copy(class)?,
    }))
}

/// What a class has from others below its parent, of which this is known. None where more stand
/// above it than there are classes.
#[tactic(auto, using(crate::proofs::Descending::below_tells))]
pub fn below<'a>(
    notes: &[Note<'a>],
    outline: &[ClassInfo],
    parent: u32,
    above: &Descent<'a>,
    class: u32,
) -> Result<Option<Descent<'a>>, Memory>
    requires above { Tells (map note_of notes.now) (classes_of outline.now) parent above.now }
    requires parent { parent_of (classes_of outline.now) class ≡ Some parent }
    ensures { IfOk result (λ o. IfSome o
        (TellsAbove (map note_of notes.now) (classes_of outline.now) class)) }
{
    let _notes = notes.len();
    let _parent = parent;
    let Some(depth) = above.depth.checked_add(1) else {
        return Ok(None);
    };
    if depth >= outline.len() {
        return Ok(None);
    }
    Ok(Some(Descent {
        depth,
        members: above.members.copy(class)?,
    }))
}

/// With the members of the class itself.
#[tactic(auto, using(crate::proofs::Descending::own_tells))]
pub fn with_own<'a>(
    alloc: Global,
    notes: &[Note<'a>],
    outline: &[ClassInfo],
    above: Descent<'a>,
    class: u32,
) -> Result<Descent<'a>, Memory>
    requires { TellsAbove (map note_of notes.now) (classes_of outline.now) class above }
    ensures { IfOk result (Tells (map note_of notes.now) (classes_of outline.now) class) }
{
    let _outline = outline.len();
    let Descent { depth, mut members } = above;
    members.add_note(alloc, notes, class)?;
    Ok(Descent { depth, members })
}
