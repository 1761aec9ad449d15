//! Classes.

ghost use Rattle.std.specs.Prelude.{◌≡◌, slice_get};
ghost use Rattle.verse_verify_notes.specs.View.{class_of, table_of};
ghost use Rattle.verse_verify_faults.specs.Faults.{methods_at, all_override};
ghost use Rattle.verse_verify_faults.specs.Faults.{inherits, class_is, class_fault};

use crate::methods::{are_methods, do_all_override, is_front};
use crate::parents::does_come_back;
use verse_code::codes::{Class, Code};
use verse_verify_notes::notes::{ClassNote, Table};

/// Whether a class has the methods of its parent.
fn has_methods_of(code: &Code, table: &Table, parent: u32, made: &Class) -> bool
    ensures { result ≡ all_override code.now (table_of table.now)
        (methods_at code.now (table_of table.now) (slice_get code.now.classes parent))
        made.now.methods }
{
    match code.classes.get(parent as usize) {
        None => true,
        Some(above) => {
            do_all_override(
                code,
                table,
                above.methods.as_slice(),
                made.methods.as_slice(),
            )
        }
    }
}

/// Whether a class has what its parent has.
fn does_inherit(code: &Code, table: &Table, note: &ClassNote, made: &Class) -> bool
    ensures { result ≡ inherits code.now (table_of table.now) note.now.parent
        (class_of note.now) made.now }
{
    let Some(parent) = note.parent else {
        return true;
    };
    match table.classes.get(parent as usize) {
        None => false,
        Some(above) => {
            is_front(code, table, &above.slots, &note.slots)
                && has_methods_of(code, table, parent, made)
        }
    }
}

/// Whether the notes of a class are right.
fn is_right(code: &Code, table: &Table, class: usize, note: &ClassNote, made: &Class) -> bool
    ensures { result ≡ class_is code.now (table_of table.now) class (class_of note.now) made.now }
{
    !does_come_back(code, table, class, note.parent)
        && does_inherit(code, table, note, made)
        && are_methods(code, table, class, made.methods.as_slice())
}

/// The first class whose notes are wrong.
pub fn class_fault(code: &Code, table: &Table) -> Option<usize>
    ensures { result ≡ class_fault code.now (table_of table.now) 0 (table_of table.now).classes
        code.now.classes }
{
    let mut rest = code.classes.as_slice();
    'classes: for (class, note) in table.classes.iter().enumerate() {
        let Some((made, more)) = rest.split_first() else {
            return Some(class);
        };
        if !is_right(code, table, class, note, made) {
            return Some(class);
        }
        rest = more;
    }
    None
}
