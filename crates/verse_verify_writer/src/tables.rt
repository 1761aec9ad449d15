//! What notes say of classes and functions is written.

ghost use Rattle.std.specs.Prelude.{◌≡◌, ◌++◌, OnOk, map};
ghost use Rattle.verse_verify_bytes.specs.Bytes.{each, parent, class_note, func_note};
ghost use Rattle.verse_verify_notes.specs.View.{class_of, classes_of, func_of};

use crate::numbers::{push_byte, push_flag, push_number};
use crate::sorts::{push_sort, push_sorts};
use verse_base::refusals::Memory;
use verse_verify_notes::notes::{ClassNote, FuncNote};

fn push_parent(out: &mut Vec<u8>, class: Option<u32>) -> Result<(), Memory>
    ensures { OnOk result (out.new.items ≡ out.old.items ++ parent class) }
{
    match class {
        None => push_byte(out, 0),
        Some(n) => push_number(out, u64::from(n) + 1),
    }
}

fn push_class(out: &mut Vec<u8>, note: &ClassNote) -> Result<(), Memory>
    ensures { OnOk result (out.new.items ≡ out.old.items ++ class_note (class_of note.now)) }
{
    push_parent(out, note.parent)?;
    push_sorts(out, note.slots.as_slice())
}

/// Writes what is said of each class.
pub(crate) fn push_classes(out: &mut Vec<u8>, notes: &[ClassNote]) -> Result<(), Memory>
    ensures { OnOk result (out.new.items ≡ out.old.items ++
        each class_note (classes_of notes.now)) }
{
    'entries: for entry in notes {
        push_class(out, entry)?;
    }
    Ok(())
}

fn push_function(out: &mut Vec<u8>, note: &FuncNote) -> Result<(), Memory>
    ensures { OnOk result (out.new.items ≡ out.old.items ++ func_note (func_of note.now)) }
{
    push_sorts(out, note.params.as_slice())?;
    push_sort(out, &note.result)?;
    push_flag(out, note.may_fail)?;
    push_flag(out, note.may_wait)
}

/// Writes what is said of each function.
pub(crate) fn push_functions(out: &mut Vec<u8>, notes: &[FuncNote]) -> Result<(), Memory>
    ensures { OnOk result (out.new.items ≡ out.old.items ++
        each func_note (map func_of notes.now)) }
{
    'entries: for entry in notes {
        push_function(out, entry)?;
    }
    Ok(())
}
