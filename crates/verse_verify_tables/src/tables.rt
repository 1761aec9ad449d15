//! Classes and functions.

ghost use Rattle.std.specs.Prelude.{◌≡◌};
ghost use Rattle.verse_verify_notes.specs.View.{table_of};
ghost use Rattle.verse_verify_faults.specs.Faults as faults;

use crate::classes::class_fault;
use crate::functions::func_fault;
use verse_code::codes::Code;
use verse_verify_notes::notes::Table;

/// The first number at which the notes of classes and functions are wrong: of a class, or of a
/// function, numbered behind the classes. Takes no memory.
pub fn table_fault(code: &Code, table: &Table) -> Option<usize>
    ensures { result ≡ faults.table_fault code.now (table_of table.now) }
{
    match class_fault(code, table) {
        Some(class) => Some(class),
        None => func_fault(code, table),
    }
}
