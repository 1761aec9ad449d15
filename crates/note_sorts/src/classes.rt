//! What notes say of classes.

ghost use Rattle.std.specs.Prelude.{◌≡◌, ◌++◌, IfOk, OnOk, map};
ghost use Rattle.lower_notes.specs.Programs as n;
ghost use Rattle.verse_verify_notes.specs.View.{sorts_of, class_of, classes_of};
ghost use Rattle.note_sorts.specs.Tabled.{field_sort, found_of};
ghost use Rattle.note_sorts.specs.Classes.{class_note};

use crate::types::sort_of;
use shared_list::{Halves, SharedList};
use std::alloc::Global;
use verse_base::refusals::Memory;
use verse_tree::programs::Program;
use verse_tree::tables::{ClassInfo, FieldInfo};
use verse_verify_notes::notes::ClassNote;
use verse_verify_notes::sorts::Sort;

fn add_slots(
    alloc: Global,
    slots: &mut Vec<Sort>,
    fields: &SharedList<FieldInfo>,
) -> Result<(), Memory>
    ensures { OnOk result (sorts_of slots.new.items ≡ sorts_of slots.old.items ++
        map field_sort fields.now) }
{
    match fields.halves() {
        Halves::Nothing => Ok(()),
        Halves::One(field) => {
            slots.push(sort_of(alloc, &field.ty)?)?;
            Ok(())
        }
        Halves::Two(left, right) => {
            add_slots(alloc, slots, left)?;
            add_slots(alloc, slots, right)
        }
    }
}

fn slots(alloc: Global, fields: &SharedList<FieldInfo>) -> Result<Vec<Sort>, Memory>
    ensures { IfOk result (λ r. sorts_of r.items ≡ map field_sort fields.now) }
{
    let mut slots = Vec::new(alloc);
    add_slots(alloc, &mut slots, fields)?;
    Ok(slots)
}

fn class_note(alloc: Global, class: &ClassInfo) -> Result<ClassNote, Memory>
    ensures { IfOk result (λ r. class_of r ≡ class_note class.now) }
{
    Ok(ClassNote {
        parent: class.parent,
        slots: slots(alloc, class.fields.all())?,
    })
}

/// What notes say of the classes of a program.
#[tactic(auto, using(crate::proofs::Noting::classes_are))]
pub fn class_notes(alloc: Global, program: &Program) -> Result<Vec<ClassNote>, Memory>
    ensures { IfOk result (λ r. classes_of r.items ≡
        n.class_notes (found_of program.now) 0 program.now.names.classes) }
{
    let classes = program.names.classes.as_slice();
    let mut notes = Vec::new(alloc);
    'classes: for class in classes {
        notes.push(class_note(alloc, class)?)?;
    }
    Ok(notes)
}
