//! The first operations of all functions.

ghost use Rattle.std.specs.Prelude.{◌≡◌, ◌≤◌, ◌<◌, ℕ, true, false, length};
ghost use Rattle.verse_verify_faults.specs.Faults.{begins_at};
ghost use Rattle.verse_verify_notes.specs.View.{func_of, table_of};
ghost use Rattle.verse_verify_entries.specs.Entries.{lesser, least_from};

use crate::beginnings::does_begin_there;
use verse_code::codes::{Code, Func};
use verse_verify_notes::notes::{FuncNote, Table};

/// The lesser of a number and the entry of the function of this number, if the notes there are
/// wrong.
fn lesser(
    code: &Code,
    table: &Table,
    least: usize,
    number: usize,
    func: &Func,
    note: &FuncNote,
) -> usize
    ensures { result ≡ lesser code.now (table_of table.now) least number func.now
        (func_of note.now) }
{
    if does_begin_there(code, table, number, func, note) {
        return least;
    }
    least.min(func.entry as usize)
}

/// The least of the number of operations and the entries whose notes are wrong.
fn least_entry(code: &Code, table: &Table) -> usize
    ensures { result ≡ least_from code.now (table_of table.now) (length code.now.ops) 0
        code.now.functions (table_of table.now).functions }
{
    let mut least = code.ops.len();
    let mut rest = table.functions.as_slice();
    'funcs: for (number, func) in code.functions.as_slice().iter().enumerate() {
        let Some((note, more)) = rest.split_first() else {
            return 0;
        };
        least = lesser(code, table, least, number, func, note);
        rest = more;
    }
    least
}

/// The first operation at which V3 is broken, or the number of operations. V3 stands under Notes
/// in docs/FORMATS.md. Takes no memory.
pub fn entry_fault(code: &Code, table: &Table) -> usize
    // It is there, if it is that of an operation.
    ensures broken { result < length code.now.ops → begins_at code.now (table_of table.now) 0
        code.now.functions (table_of table.now).functions result ≡ false }
    // No operation before it breaks it.
    ensures first { (index : ℕ) → index < result → begins_at code.now (table_of table.now) 0
        code.now.functions (table_of table.now).functions index ≡ true }
    ensures within { result ≤ length code.now.ops }
{
    least_entry(code, table)
}
