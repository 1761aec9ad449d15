//! Methods of classes, and what a class puts in place of those of its parent.

ghost use Rattle.std.specs.Prelude.{◌≡◌, ◌&&◌, Some};
ghost use Rattle.std.specs.Option.{option_map};
ghost use Rattle.verse_verify_kept.specs.Rules.{rest_of};
ghost use Rattle.verse_verify_notes.specs.View.{sorts_of, func_of, table_of};
ghost use Rattle.verse_verify_faults.specs.Fitting.{fit};
ghost use Rattle.verse_verify_faults.specs.Faults.{prefix, same_each, implies, overrides};
ghost use Rattle.verse_verify_faults.specs.Faults.{all_override};
ghost use Rattle.verse_verify_faults.specs.Faults.{note_at, takes_object, is_method, are_methods};

use crate::numbers::is_same_number;
use crate::parents::does_object_fit;
use verse_code::codes::Code;
use verse_verify_notes::notes::{FuncNote, Table};
use verse_verify_notes::sorts::Sort;
use verse_verify_sorts::fitting::does_fit;
use verse_verify_sorts::sameness::is_same;

/// Whether a list begins with these sorts.
pub fn is_front(code: &Code, table: &Table, front: &[Sort], whole: &[Sort]) -> bool
    ensures { result ≡ prefix code.now (table_of table.now) (sorts_of front.now)
        (sorts_of whole.now) }
{
    let mut rest = whole;
    'sorts: for sort in front {
        let Some((other, more)) = rest.split_first() else {
            return false;
        };
        if !is_same(sort, other) {
            return false;
        }
        rest = more;
    }
    true
}

/// Whether two lists of sorts are the same.
fn are_same(code: &Code, table: &Table, sorts: &[Sort], others: &[Sort]) -> bool
    ensures { result ≡ same_each code.now (table_of table.now) (sorts_of sorts.now)
        (sorts_of others.now) }
{
    is_same_number(sorts.len(), others.len()) && is_front(code, table, sorts, others)
}

/// The sorts of a function's parameters behind the first.
fn behind(func: &FuncNote) -> &[Sort]
    ensures { sorts_of result.now ≡ rest_of (func_of func.now).params }
{
    match func.params.split_first() {
        None => &func.params,
        Some((_, rest)) => rest,
    }
}

/// Whether two functions take the same behind the object.
fn do_params_agree(code: &Code, table: &Table, func: &FuncNote, other: &FuncNote) -> bool
    ensures { result ≡ same_each code.now (table_of table.now) (rest_of (func_of func.now).params)
        (rest_of (func_of other.now).params) }
{
    are_same(code, table, behind(func), behind(other))
}

/// Whether the second is true where the first is.
fn does_imply(code: &Code, table: &Table, first: bool, second: bool) -> bool
    ensures { result ≡ implies code.now (table_of table.now) first second }
{
    if first {
        return second;
    }
    true
}

/// Whether a function takes, behind the object, and gives what another one does.
fn do_sorts_fit(code: &Code, table: &Table, func: &FuncNote, other: &FuncNote) -> bool
    ensures { result ≡ (same_each code.now (table_of table.now)
        (rest_of (func_of func.now).params) (rest_of (func_of other.now).params)
        && fit (table_of table.now).classes (func_of func.now).result (func_of other.now).result) }
{
    do_params_agree(code, table, func, other)
        && does_fit(&table.classes, &func.result, &other.result)
}

/// The same, and fails only where the other one may.
fn does_fail_as(code: &Code, table: &Table, func: &FuncNote, other: &FuncNote) -> bool
    ensures { result ≡ (same_each code.now (table_of table.now)
        (rest_of (func_of func.now).params) (rest_of (func_of other.now).params)
        && fit (table_of table.now).classes (func_of func.now).result (func_of other.now).result
        && implies code.now (table_of table.now) func.now.may_fail other.now.may_fail) }
{
    do_sorts_fit(code, table, func, other) && does_imply(code, table, func.may_fail, other.may_fail)
}

/// Whether a function may stand where another one is expected.
fn may_replace(code: &Code, table: &Table, func: &FuncNote, other: &FuncNote) -> bool
    ensures { result ≡ overrides code.now (table_of table.now) (Some (func_of func.now))
        (Some (func_of other.now)) }
{
    does_fail_as(code, table, func, other) && does_imply(code, table, func.may_wait, other.may_wait)
}

/// What the notes say of a function.
pub fn func_note<'a>(code: &Code, table: &'a Table, func: u32) -> Option<&'a FuncNote>
    ensures { option_map (λ f. func_of f.now) result ≡ note_at code.now (table_of table.now) func }
{
    table.functions.get(func as usize)
}

/// Whether a class's method may stand where that of its parent is expected.
fn does_override(code: &Code, table: &Table, method: u32, other: u32) -> bool
    ensures { result ≡ overrides code.now (table_of table.now)
        (note_at code.now (table_of table.now) method)
        (note_at code.now (table_of table.now) other) }
{
    match func_note(code, table, method) {
        None => false,
        Some(func) => match func_note(code, table, other) {
            None => true,
            Some(above) => may_replace(code, table, func, above),
        },
    }
}

/// Whether a class has all methods of its parent, each with one that may stand in its place.
pub fn do_all_override(code: &Code, table: &Table, above: &[u32], methods: &[u32]) -> bool
    ensures { result ≡ all_override code.now (table_of table.now) above.now methods.now }
{
    let mut rest = methods;
    'methods: for other in above {
        let Some((method, more)) = rest.split_first() else {
            return false;
        };
        if !does_override(code, table, *method, *other) {
            return false;
        }
        rest = more;
    }
    true
}

/// Whether the first of these sorts takes an object of the class.
fn takes_object(code: &Code, table: &Table, class: usize, params: &[Sort]) -> bool
    ensures { result ≡ takes_object code.now (table_of table.now) class (sorts_of params.now) }
{
    match params.split_first() {
        None => false,
        Some((first, _)) => does_object_fit(table, class, first),
    }
}

/// Whether a function, if there is one, takes an object of the class first.
fn is_method(code: &Code, table: &Table, class: usize, func: u32) -> bool
    ensures { result ≡ is_method code.now (table_of table.now) class
        (note_at code.now (table_of table.now) func) }
{
    match func_note(code, table, func) {
        None => true,
        Some(note) => takes_object(code, table, class, &note.params),
    }
}

/// Whether each method takes an object of the class first.
pub fn are_methods(code: &Code, table: &Table, class: usize, methods: &[u32]) -> bool
    ensures { result ≡ are_methods code.now (table_of table.now) class methods.now }
{
    'methods: for func in methods {
        if !is_method(code, table, class, *func) {
            return false;
        }
    }
    true
}
