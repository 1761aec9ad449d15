//! The first operation of a function.

ghost use Rattle.std.specs.Prelude.{◌≡◌, ◌++◌};
ghost use Rattle.std.specs.Option.{option_map};
ghost use Rattle.verse_sorts.specs.Sorts as s;
ghost use Rattle.verse_verify_kept.specs.Rules.{nones};
ghost use Rattle.verse_verify_faults.specs.Fitting.{fit, each_fit};
ghost use Rattle.verse_verify_faults.specs.Spots.{spot_at};
ghost use Rattle.verse_verify_faults.specs.Faults as f;
ghost use Rattle.verse_verify_notes.specs.View.{sort_of, sorts_of, classes_of};
ghost use Rattle.verse_verify_notes.specs.View.{func_of, spot_of, table_of};
ghost use Rattle.verse_verify_entries.specs.Entries.{begins_there, bare, all_nothing};

use verse_code::codes::{Code, Func};
use verse_verify_notes::notes::{ClassNote, FuncNote, Spot, Table};
use verse_verify_notes::sorts::Sort;
use verse_verify_parts::parts::{are_no_numbers, is_without_operand, is_without_try};
use verse_verify_sorts::fitting::does_fit;
use verse_verify_sorts::numbers::is_number;
use verse_verify_tables::numbers::is_same_number;

/// The state at an operation, where it is ever reached.
pub fn spot_at(table: &Table, index: usize) -> Option<&Spot>
    ensures { option_map (λ q. spot_of q.now) result ≡ spot_at (table_of table.now) index }
{
    match table.spots.get(index) {
        None => None,
        Some(None) => None,
        Some(Some(spot)) => Some(spot),
    }
}

/// Whether a sort asks nothing of a local.
fn is_nothing(classes: &[ClassNote], sort: &Sort) -> bool
    ensures { result ≡ fit (classes_of classes.now) s.none (sort_of sort.now) }
{
    match sort {
        Sort::None => true,
        _ => false,
    }
}

/// Whether sorts ask nothing of locals.
fn do_all_ask_nothing(classes: &[ClassNote], sorts: &[Sort]) -> bool
    ensures { result ≡ all_nothing (classes_of classes.now) (sorts_of sorts.now) }
{
    'sorts: for sort in sorts {
        if !is_nothing(classes, sort) {
            return false;
        }
    }
    true
}

/// Whether there are so many sorts, which ask nothing of locals.
#[tactic(auto, using(crate::proofs::Nothing::counted))]
fn are_nothing(classes: &[ClassNote], count: u32, sorts: &[Sort]) -> bool
    ensures { result ≡ each_fit (classes_of classes.now) (nones count) (sorts_of sorts.now) }
{
    is_same_number(sorts.len(), count as usize) && do_all_ask_nothing(classes, sorts)
}

/// Whether parameters, and so many locals behind them of which nothing is asked, fit others.
fn do_locals_fit(classes: &[ClassNote], params: &[Sort], count: u32, others: &[Sort]) -> bool
    ensures { result ≡ each_fit (classes_of classes.now) (sorts_of params.now ++ nones count)
        (sorts_of others.now) }
{
    let mut rest = others;
    'params: for sort in params {
        let Some((other, more)) = rest.split_first() else {
            return false;
        };
        if !does_fit(classes, sort, other) {
            return false;
        }
        rest = more;
    }
    are_nothing(classes, count, rest)
}

/// Whether a state is of no arm and no deferred block, and no block is deferred.
fn is_outside(spot: &Spot) -> bool
    ensures { result ≡ bare (spot_of spot.now) }
{
    if spot.arm.is_some() {
        return false;
    }
    if !is_without_operand(spot) {
        return false;
    }
    if !is_without_try(spot) {
        return false;
    }
    if spot.block.is_some() {
        return false;
    }
    if !are_no_numbers(&spot.outer) {
        return false;
    }
    if !is_number(spot.under, 0) {
        return false;
    }
    if !are_no_numbers(&spot.defers) {
        return false;
    }
    true
}

/// Whether a function of this number may begin in a state.
fn does_begin(
    code: &Code,
    table: &Table,
    number: usize,
    func: &Func,
    note: &FuncNote,
    spot: &Spot,
) -> bool
    ensures { result ≡ f.begins code.now (table_of table.now) number func.now (func_of note.now)
        (spot_of spot.now) }
{
    if !is_same_number(spot.func as usize, number) {
        return false;
    }
    if !is_outside(spot) {
        return false;
    }
    let count = func.locals.saturating_sub(func.params);
    do_locals_fit(&table.classes, &note.params, count, &spot.locals)
}

/// Whether the notes at the first operation of the function of this number are right.
pub fn does_begin_there(
    code: &Code,
    table: &Table,
    number: usize,
    func: &Func,
    note: &FuncNote,
) -> bool
    ensures { result ≡ begins_there code.now (table_of table.now) number func.now
        (func_of note.now) }
{
    match spot_at(table, func.entry as usize) {
        None => false,
        Some(spot) => does_begin(code, table, number, func, note, spot),
    }
}
