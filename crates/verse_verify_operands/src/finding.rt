//! What an operation finds by its operands.

ghost use Rattle.std.specs.Prelude.{◌≡◌, [], slice_get};
ghost use Rattle.std.specs.Option.{option_map};
ghost use Rattle.verse_sorts.specs.Sorts as s;
ghost use Rattle.verse_sorts.specs.Typing.{at};
ghost use Rattle.verse_verify_kept.specs.Rules.{sorts, at_sort};
ghost use Rattle.verse_verify_faults.specs.Stepping as t;
ghost use Rattle.verse_verify_notes.specs.View.{sort_of, sorts_of, func_of, classes_of};
ghost use Rattle.verse_verify_parts.specs.Heres.{code_in, table_in, classes_in, operands};
ghost use Rattle.verse_verify_parts.specs.Mades.{made_of};
ghost use Rattle.verse_verify_operands.specs.Finds as f;
ghost use Rattle.verse_verify_operands.specs.Finds.{seen};

use crate::asking::{is_fit, is_int, is_span};
use verse_verify_notes::notes::FuncNote;
use verse_verify_notes::sorts::Sort;
use verse_verify_parts::heres::Here;
use verse_verify_parts::mades::Made;
use verse_verify_parts::rows::local_at;
use verse_verify_sorts::keys::is_key;

/// So many operands, and those beneath them. None where there are fewer.
#[tactic(auto, using(crate::proofs::Found::popped_there, crate::proofs::Found::popped_few))]
pub fn pop_many(st: &[Sort], count: usize) -> Option<(&[Sort], &[Sort])>
    ensures { option_map (λ r. (sorts_of r.0.now, operands r.1.now)) result ≡
        f.popped count (operands st.now) [] }
{
    if count > st.len() {
        return None;
    }
    let (rest, taken) = st.split_at(st.len() - count);
    Some((taken, rest))
}

/// The sort of a local that may be read.
pub fn readable<'a>(here: &Here<'a>, local: usize) -> Option<&'a Sort>
    ensures { option_map (λ a. sort_of a.now) result ≡
        t.readable (at (sorts_of here.now.spot.now.locals.value.items) local) }
{
    match local_at(&here.spot.locals, local) {
        None => None,
        Some(Sort::None) => None,
        Some(sort) => Some(sort),
    }
}

/// The sort of a list's parts.
pub fn part_of_list(sort: &Sort) -> Option<&Sort>
    ensures { option_map (λ a. sort_of a.now) result ≡ t.part_of_list (sort_of sort.now) }
{
    match sort {
        Sort::List(part) => Some(part),
        Sort::Never => Some(sort),
        _ => None,
    }
}

/// What a query gives.
pub fn queried<'a>(sort: &'a Sort) -> Option<Made<'a>>
    ensures { option_map made_of result ≡ option_map t.is (t.queried (sort_of sort.now)) }
{
    match sort {
        Sort::Option(part) => Some(Made::Is(part)),
        Sort::Logic => Some(Made::Logic),
        Sort::Nil | Sort::Never => Some(Made::Never),
        _ => None,
    }
}

/// To what part of a container an index leads.
pub fn part_at<'a>(here: &Here, sort: &'a Sort, index: &Sort) -> Option<&'a Sort>
    ensures { option_map (λ a. sort_of a.now) result ≡
        t.part_at (classes_in here.now) (sort_of sort.now) (sort_of index.now) }
{
    match sort {
        Sort::List(part) => {
            if is_int(here, index) {
                return Some(part);
            }
            None
        }
        Sort::Map(key, value) => {
            if !is_key(index) {
                return None;
            }
            if !is_fit(here, index, key) {
                return None;
            }
            Some(value)
        }
        Sort::Never => Some(sort),
        _ => None,
    }
}

/// To what part indices lead, one by one.
pub fn part_at_path<'a>(here: &Here, sort: &'a Sort, indices: &[Sort]) -> Option<&'a Sort>
    ensures { option_map (λ a. sort_of a.now) result ≡
        t.at_path (classes_in here.now) (Some (sort_of sort.now)) (sorts_of indices.now) }
{
    let mut part = sort;
    'indices: for index in indices {
        match part_at(here, part, index) {
            None => return None,
            Some(next) => part = next,
        }
    }
    Some(part)
}

/// The sort at a place of a tuple.
fn sort_at(parts: &[Sort], at: usize) -> Option<&Sort>
    ensures { option_map (λ a. sort_of a.now) result ≡ at_sort (sorts (sorts_of parts.now)) at }
{
    local_at(parts, at)
}

/// A place of a tuple, or the rule that the operation breaks.
pub fn item_in(sort: &Sort, at: u32) -> Result<&Sort, u8>
    ensures { seen (λ a. sort_of a.now) result ≡ f.item_in (sort_of sort.now) at }
{
    match sort {
        Sort::Tuple(parts) => match sort_at(parts, at as usize) {
            None => Err(6),
            Some(part) => Ok(part),
        },
        Sort::Never => Ok(sort),
        _ => Err(5),
    }
}

/// What a task gives.
pub fn task_of(sort: &Sort) -> Option<&Sort>
    ensures { option_map (λ a. sort_of a.now) result ≡ f.task_of (sort_of sort.now) }
{
    match sort {
        Sort::Task(part) => Some(part),
        Sort::Never => Some(sort),
        _ => None,
    }
}

/// What an event gives.
pub fn heard_of(sort: &Sort) -> Option<&Sort>
    ensures { option_map (λ a. sort_of a.now) result ≡ f.heard_of (sort_of sort.now) }
{
    match sort {
        Sort::Event(part) => Some(part),
        Sort::Never => Some(sort),
        _ => None,
    }
}

/// The notes of a class's method.
fn note_of_method<'a>(here: &Here<'a>, class: u32, method: u32) -> Option<&'a FuncNote>
    ensures { option_map (λ g. func_of g.now) result ≡ t.note_of (table_in here.now).functions
        (t.methods_of (slice_get (code_in here.now).classes class) method) }
{
    match here.code.classes.get(class as usize) {
        None => None,
        Some(made) => match made.methods.get(method as usize) {
            None => None,
            Some(func) => here.table.functions.get(*func as usize),
        },
    }
}

/// The method of an object; None where there is no object; or the rule that is broken.
pub fn method_in<'a>(here: &Here<'a>, sort: &Sort, method: u32) -> Result<Option<&'a FuncNote>, u8>
    ensures { seen (option_map (λ g. func_of g.now)) result ≡
        f.method_in (code_in here.now) (table_in here.now) (sort_of sort.now) method }
{
    match sort {
        Sort::Object(class) => match note_of_method(here, *class, method) {
            None => Err(6),
            Some(note) => Ok(Some(note)),
        },
        Sort::Never => Ok(None),
        _ => Err(5),
    }
}

/// What Take writes.
#[derive(Clone, Copy)]
pub struct Taking<'a> {
    /// The local of the value.
    pub value: Made<'a>,
    /// The local behind it.
    pub beside: Made<'a>,
    /// How far behind the domain is what is left of it.
    pub far: usize,
    pub last: Made<'a>,
}

/// What Take writes of a list or a map.
fn of_container<'a>(value: Made<'a>, beside: Made<'a>) -> Taking<'a>
    ensures { f.writes_of result ≡ (made_of value.entry, made_of beside.entry, 1, t.is s.int) }
{
    Taking {
        value,
        beside,
        far: 1,
        last: Made::Int,
    }
}

/// What Take writes of a domain.
pub fn taken<'a>(here: &Here, sort: &'a Sort) -> Option<Taking<'a>>
    ensures { option_map f.writes_of result ≡
        option_map f.written_of (t.taken (classes_in here.now) (sort_of sort.now)) }
{
    match sort {
        Sort::List(part) => Some(of_container(Made::Is(part), Made::Int)),
        Sort::Map(key, part) => Some(of_container(Made::Is(part), Made::Is(key))),
        Sort::Never => Some(of_container(Made::Never, Made::Never)),
        _ => {
            if is_span(here, sort) {
                return Some(Taking {
                    value: Made::Int,
                    beside: Made::Any,
                    far: 0,
                    last: Made::Span,
                });
            }
            None
        }
    }
}
