//! What an operation makes, and the sorts as which it may be noted.

ghost use Rattle.std.specs.Prelude.{◌≡◌, ◌∷◌, [], true};
ghost use Rattle.verse_sorts.specs.Sorts as s;
ghost use Rattle.verse_meaning_state.specs.Waits.{eqn};
ghost use Rattle.verse_verify_faults.specs.Fitting.{fit, all_fit, on_any, on_unit, on_nil};
ghost use Rattle.verse_verify_faults.specs.Fitting.{on_int, on_logic, on_char, on_span};
ghost use Rattle.verse_verify_faults.specs.Fitting.{on_enum, on_list, on_event, on_task};
ghost use Rattle.verse_verify_faults.specs.Stepping as t;
ghost use Rattle.verse_verify_faults.specs.Stepping.{firsts, seconds};
ghost use Rattle.verse_verify_faults.specs.Faults.{holds};
ghost use Rattle.verse_verify_kept.specs.Rules.{sorts};
ghost use Rattle.verse_verify_notes.specs.View.{sort_of, sorts_of, classes_of};
ghost use Rattle.verse_verify_parts.specs.Mades.{made_of};

use verse_verify_notes::notes::ClassNote;
use verse_verify_notes::sorts::Sort;
use verse_verify_sorts::classes::is_heir;
use verse_verify_sorts::fitting::{do_all_fit, does_fit, parts_fit};
use verse_verify_sorts::numbers::is_number;

/// What stands in a place behind an operation.
#[derive(Clone, Copy)]
pub enum Made<'a> {
    /// A value of a sort that stood there before.
    Is(&'a Sort),
    Any,
    Never,
    Unit,
    Nil,
    Int,
    Logic,
    Char,
    Span,
    Text,
    /// A task that gives no value.
    NeverTask,
    /// A value of an enum, by its number.
    Enum(u32),
    /// An object of a class, by its number.
    Object(u32),
    OptionOf(&'a Sort),
    TaskOf(&'a Sort),
    TupleOf(&'a [Sort]),
    /// A list of values of these sorts.
    ListOf(&'a [Sort]),
    ListOfTwo(&'a Sort, &'a Sort),
    /// A map of keys and values of these sorts, in turn.
    MapOf(&'a [Sort]),
    /// A variable's cell.
    VarOf(&'a Sort),
    Event,
}

/// Whether what an operation made may be noted as a sort.
pub fn holds(classes: &[ClassNote], made: Made, sort: &Sort) -> bool
    ensures { result ≡ holds (classes_of classes.now) (made_of made.entry) (sort_of sort.now) }
{
    match made {
        Made::Is(old) => does_fit(classes, old, sort),
        Made::Any => is_any(sort),
        Made::Never => true,
        Made::Unit => is_unit(sort),
        Made::Nil => is_nil(sort),
        Made::Int => is_int(sort),
        Made::Logic => is_logic(sort),
        Made::Char => is_char(sort),
        Made::Span => is_span(sort),
        Made::Text => is_text(sort),
        Made::NeverTask => is_task(sort),
        Made::Enum(number) => is_enum(number, sort),
        Made::Object(class) => is_object(classes, class, sort),
        Made::OptionOf(part) => is_option(classes, part, sort),
        Made::TaskOf(part) => is_task_of(classes, part, sort),
        Made::TupleOf(parts) => is_tuple(classes, parts, sort),
        Made::ListOf(parts) => is_list(classes, parts, sort),
        Made::ListOfTwo(first, second) => is_list_of_two(classes, first, second, sort),
        Made::MapOf(parts) => is_map(classes, parts, sort),
        Made::VarOf(part) => is_var(classes, part, sort),
        Made::Event => is_event(sort),
    }
}

fn is_any(sort: &Sort) -> bool
    ensures { result ≡ on_any (sort_of sort.now) }
{
    match sort {
        Sort::None | Sort::Any => true,
        _ => false,
    }
}

fn is_unit(sort: &Sort) -> bool
    ensures { result ≡ on_unit (sort_of sort.now) }
{
    match sort {
        Sort::None | Sort::Any | Sort::Unit | Sort::Span => true,
        _ => false,
    }
}

fn is_nil(sort: &Sort) -> bool
    ensures { result ≡ on_nil (sort_of sort.now) }
{
    match sort {
        Sort::None | Sort::Any | Sort::Nil | Sort::Logic | Sort::Option(_) => true,
        _ => false,
    }
}

fn is_int(sort: &Sort) -> bool
    ensures { result ≡ on_int (sort_of sort.now) }
{
    match sort {
        Sort::None | Sort::Any | Sort::Int | Sort::Span => true,
        _ => false,
    }
}

fn is_logic(sort: &Sort) -> bool
    ensures { result ≡ on_logic (sort_of sort.now) }
{
    match sort {
        Sort::None | Sort::Any | Sort::Logic => true,
        _ => false,
    }
}

fn is_char(sort: &Sort) -> bool
    ensures { result ≡ on_char (sort_of sort.now) }
{
    match sort {
        Sort::None | Sort::Any | Sort::Char => true,
        _ => false,
    }
}

fn is_span(sort: &Sort) -> bool
    ensures { result ≡ on_span (sort_of sort.now) }
{
    match sort {
        Sort::None | Sort::Any | Sort::Span => true,
        _ => false,
    }
}

fn is_text(sort: &Sort) -> bool
    ensures { result ≡ on_list (sort_of sort.now) on_char }
{
    match sort {
        Sort::None | Sort::Any => true,
        Sort::List(part) => is_char(part),
        _ => false,
    }
}

fn is_task(sort: &Sort) -> bool
    ensures { result ≡ on_task (sort_of sort.now) (λ part. true) }
{
    match sort {
        Sort::None | Sort::Any | Sort::Task(_) => true,
        _ => false,
    }
}

fn is_event(sort: &Sort) -> bool
    ensures { result ≡ on_event (sort_of sort.now) (λ part. true) }
{
    match sort {
        Sort::None | Sort::Any | Sort::Event(_) => true,
        _ => false,
    }
}

fn is_enum(number: u32, sort: &Sort) -> bool
    ensures { result ≡ on_enum (sort_of sort.now) (λ other. eqn number other) }
{
    match sort {
        Sort::None | Sort::Any => true,
        Sort::Enum(other) => is_number(number, *other),
        _ => false,
    }
}

fn is_object(classes: &[ClassNote], class: u32, sort: &Sort) -> bool
    ensures { result ≡ fit (classes_of classes.now) (s.obj class) (sort_of sort.now) }
{
    match sort {
        Sort::None | Sort::Any => true,
        Sort::Object(other) => is_heir(classes, class, *other),
        _ => false,
    }
}

fn is_option(classes: &[ClassNote], part: &Sort, sort: &Sort) -> bool
    ensures { result ≡ fit (classes_of classes.now) (s.opt (sort_of part.now)) (sort_of sort.now) }
{
    match sort {
        Sort::None | Sort::Any => true,
        Sort::Option(other) => does_fit(classes, part, other),
        _ => false,
    }
}

fn is_task_of(classes: &[ClassNote], part: &Sort, sort: &Sort) -> bool
    ensures { result ≡ fit (classes_of classes.now) (s.task (sort_of part.now)) (sort_of sort.now) }
{
    match sort {
        Sort::None | Sort::Any => true,
        Sort::Task(other) => does_fit(classes, part, other),
        _ => false,
    }
}

fn is_tuple(classes: &[ClassNote], parts: &[Sort], sort: &Sort) -> bool
    ensures { result ≡ fit (classes_of classes.now) (s.tuple (sorts (sorts_of parts.now)))
        (sort_of sort.now) }
{
    match sort {
        Sort::None | Sort::Any => true,
        Sort::Tuple(others) => parts_fit(classes, parts, others.as_slice()),
        _ => false,
    }
}

fn is_list(classes: &[ClassNote], parts: &[Sort], sort: &Sort) -> bool
    ensures { result ≡ holds (classes_of classes.now) (t.list_of (sorts_of parts.now))
        (sort_of sort.now) }
{
    match sort {
        Sort::None | Sort::Any => true,
        Sort::List(other) => do_all_fit(classes, parts, other),
        _ => false,
    }
}

fn is_list_of_two(classes: &[ClassNote], first: &Sort, second: &Sort, sort: &Sort) -> bool
    ensures { result ≡ holds (classes_of classes.now)
        (t.list_of (sort_of first.now ∷ sort_of second.now ∷ [])) (sort_of sort.now) }
{
    match sort {
        Sort::None | Sort::Any => true,
        Sort::List(other) => {
            if does_fit(classes, first, other) && does_fit(classes, second, other) {
                return true;
            }
            false
        }
        _ => false,
    }
}

/// Whether the sorts of keys, which come first in each pair, fit one.
fn do_firsts_fit(classes: &[ClassNote], pairs: &[Sort], other: &Sort) -> bool
    ensures { result ≡ all_fit (classes_of classes.now) (firsts (sorts_of pairs.now))
        (sort_of other.now) }
{
    let mut rest = pairs;
    'pairs: for _i in 0..pairs.len() {
        let Some((key, behind)) = rest.split_first() else {
            return true;
        };
        if !does_fit(classes, key, other) {
            return false;
        }
        let Some((_, more)) = behind.split_first() else {
            return true;
        };
        rest = more;
    }
    true
}

/// Whether the sorts of values, which come second, fit one.
fn do_seconds_fit(classes: &[ClassNote], pairs: &[Sort], other: &Sort) -> bool
    ensures { result ≡ all_fit (classes_of classes.now) (seconds (sorts_of pairs.now))
        (sort_of other.now) }
{
    let mut rest = pairs;
    'pairs: for _i in 0..pairs.len() {
        let Some((_, behind)) = rest.split_first() else {
            return true;
        };
        let Some((value, more)) = behind.split_first() else {
            return true;
        };
        if !does_fit(classes, value, other) {
            return false;
        }
        rest = more;
    }
    true
}

fn is_map(classes: &[ClassNote], pairs: &[Sort], sort: &Sort) -> bool
    ensures { result ≡ holds (classes_of classes.now)
        (t.map_of (firsts (sorts_of pairs.now)) (seconds (sorts_of pairs.now)))
        (sort_of sort.now) }
{
    match sort {
        Sort::None | Sort::Any => true,
        Sort::Map(key, value) => {
            do_firsts_fit(classes, pairs, key) && do_seconds_fit(classes, pairs, value)
        }
        _ => false,
    }
}

fn is_var(classes: &[ClassNote], part: &Sort, sort: &Sort) -> bool
    ensures { result ≡ holds (classes_of classes.now) (t.var_of (sort_of part.now))
        (sort_of sort.now) }
{
    match sort {
        Sort::None | Sort::Any => true,
        Sort::Var(other) => does_fit(classes, part, other),
        _ => false,
    }
}
