//! Functions.

ghost use Rattle.std.specs.Prelude.{◌≡◌};
ghost use Rattle.verse_sorts.specs.Sorts as s;
ghost use Rattle.verse_verify_notes.specs.View.{sort_of, sorts_of, func_of, table_of};
ghost use Rattle.verse_verify_faults.specs.Fitting.{fit};
ghost use Rattle.verse_verify_faults.specs.Faults.{takes_inputs, func_is, func_fault};

use crate::numbers::is_same_number;
use verse_code::codes::Code;
use verse_verify_notes::notes::{FuncNote, Table};
use verse_verify_notes::sorts::Sort;

/// Whether an int may stand where a value of this sort is wanted.
fn does_int_fit(table: &Table, sort: &Sort) -> bool
    ensures { result ≡ fit (table_of table.now).classes s.int (sort_of sort.now) }
{
    match sort {
        Sort::None | Sort::Any | Sort::Int | Sort::Span => true,
        _ => false,
    }
}

/// Whether the inputs of a run may stand where a value of this sort is wanted.
fn do_inputs_fit(table: &Table, sort: &Sort) -> bool
    ensures { result ≡ fit (table_of table.now).classes (s.list s.int) (sort_of sort.now) }
{
    match sort {
        Sort::None | Sort::Any => true,
        Sort::List(part) => does_int_fit(table, part),
        _ => false,
    }
}

/// Whether all parameters take the inputs of a run.
fn takes_inputs(code: &Code, table: &Table, params: &[Sort]) -> bool
    ensures { result ≡ takes_inputs code.now (table_of table.now) (sorts_of params.now) }
{
    'params: for sort in params {
        if !do_inputs_fit(table, sort) {
            return false;
        }
    }
    true
}

/// Whether the notes of a function are right.
fn is_right(code: &Code, table: &Table, func: usize, note: &FuncNote) -> bool
    ensures { result ≡ func_is code.now (table_of table.now) func (func_of note.now) }
{
    if note.may_fail && note.may_wait {
        return false;
    }
    if !is_same_number(func, code.main as usize) {
        return true;
    }
    !note.may_fail && takes_inputs(code, table, &note.params)
}

/// The first function whose notes are wrong, numbered behind the classes.
pub fn func_fault(code: &Code, table: &Table) -> Option<usize>
    ensures { result ≡ func_fault code.now (table_of table.now) 0 (table_of table.now).functions }
{
    let classes = table.classes.len();
    'funcs: for (func, note) in table.functions.iter().enumerate() {
        if !is_right(code, table, func, note) {
            return Some(classes + func);
        }
    }
    None
}
