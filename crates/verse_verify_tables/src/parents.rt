//! Chains of parents, and which sorts an object of a class fits.

ghost use Rattle.std.specs.Prelude.{◌≡◌, length, slice_get};
ghost use Rattle.verse_verify_kept.specs.Notes.{parent_in};
ghost use Rattle.verse_sorts.specs.Sorts as s;
ghost use Rattle.verse_verify_notes.specs.View.{sort_of, table_of};
ghost use Rattle.verse_verify_faults.specs.Fitting.{heir, fit};
ghost use Rattle.verse_verify_faults.specs.Faults.{comes_back};

use crate::numbers::is_same_number;
use verse_code::codes::Code;
use verse_verify_notes::notes::Table;
use verse_verify_notes::sorts::Sort;

/// The class from which a class inherits.
fn parent(table: &Table, class: usize) -> Option<u32>
    ensures { result ≡ parent_in (slice_get (table_of table.now).classes class) }
{
    match table.classes.get(class) {
        None => None,
        Some(note) => note.parent,
    }
}

/// Whether a chain of parents that begins here leads to the class.
#[tactic(auto, using(crate::proofs::RuleSets::of_chains))]
pub fn does_come_back(code: &Code, table: &Table, class: usize, first: Option<u32>) -> bool
    ensures { result ≡ comes_back code.now (table_of table.now)
        (length (table_of table.now).classes) class first }
{
    let mut next = first;
    'up: for _i in 0..table.classes.len() {
        match next {
            None => return false,
            Some(at) => {
                if is_same_number(class, at as usize) {
                    return true;
                }
                next = parent(table, at as usize);
            }
        }
    }
    false
}

/// Whether a class is another one or inherits from it.
#[tactic(auto, using(crate::proofs::RuleSets::of_climbing))]
fn is_heir(table: &Table, class: usize, other: u32) -> bool
    ensures { result ≡ heir (length (table_of table.now).classes) (table_of table.now).classes
        class other }
{
    let mut at = class;
    'up: for _i in 0..table.classes.len() {
        if is_same_number(at, other as usize) {
            return true;
        }
        match parent(table, at) {
            None => return false,
            Some(up) => at = up as usize,
        }
    }
    is_same_number(at, other as usize)
}

/// Whether an object of a class may stand where a value of this sort is wanted.
pub fn does_object_fit(table: &Table, class: usize, sort: &Sort) -> bool
    ensures { result ≡ fit (table_of table.now).classes (s.obj class) (sort_of sort.now) }
{
    match sort {
        Sort::None | Sort::Any => true,
        Sort::Object(other) => is_heir(table, class, *other),
        _ => false,
    }
}
