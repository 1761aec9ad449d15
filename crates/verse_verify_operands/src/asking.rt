//! Tests of operands.

ghost use Rattle.std.specs.Prelude.{◌≡◌, cond};
ghost use Rattle.verse_sorts.specs.Sorts as s;
ghost use Rattle.verse_verify_faults.specs.Fitting.{fit};
ghost use Rattle.verse_verify_faults.specs.Stepping as t;
ghost use Rattle.verse_verify_faults.specs.Stepping.{firsts, all_keys};
ghost use Rattle.verse_verify_notes.specs.View.{sort_of, sorts_of};
ghost use Rattle.verse_verify_parts.specs.Heres.{classes_in};

use verse_verify_notes::sorts::Sort;
use verse_verify_parts::heres::Here;
use verse_verify_sorts::fitting::does_fit;
use verse_verify_sorts::keys::is_key;

/// Whether a value of a sort may stand where one of another is wanted.
pub fn is_fit(here: &Here, sort: &Sort, other: &Sort) -> bool
    ensures { result ≡ fit (classes_in here.now) (sort_of sort.now) (sort_of other.now) }
{
    does_fit(here.classes(), sort, other)
}

/// Whether a value of a sort is an int.
pub fn is_int(here: &Here, sort: &Sort) -> bool
    ensures { result ≡ fit (classes_in here.now) (sort_of sort.now) s.int }
{
    match sort {
        Sort::Never | Sort::Int => true,
        _ => false,
    }
}

/// Whether a value of a sort is a char.
pub fn is_char(here: &Here, sort: &Sort) -> bool
    ensures { result ≡ fit (classes_in here.now) (sort_of sort.now) s.char }
{
    match sort {
        Sort::Never | Sort::Char => true,
        _ => false,
    }
}

/// Whether a value of a sort is a text.
pub fn is_text(here: &Here, sort: &Sort) -> bool
    ensures { result ≡ fit (classes_in here.now) (sort_of sort.now) (s.list s.char) }
{
    match sort {
        Sort::Never => true,
        Sort::List(part) => is_char(here, part),
        _ => false,
    }
}

/// Whether a value of a sort is the low end of a range.
pub fn is_span(here: &Here, sort: &Sort) -> bool
    ensures { result ≡ fit (classes_in here.now) (sort_of sort.now) s.span }
{
    match sort {
        Sort::Never | Sort::Unit | Sort::Int | Sort::Span => true,
        _ => false,
    }
}

/// Whether a value of a sort has parts that can be counted.
pub fn is_counted(sort: &Sort) -> bool
    ensures { result ≡ t.counted (sort_of sort.now) }
{
    match sort {
        Sort::List(_) | Sort::Map(_, _) | Sort::Never => true,
        _ => false,
    }
}

/// Whether a value of a sort may stand in a text that is put together.
fn is_shown(here: &Here, sort: &Sort) -> bool
    ensures { result ≡ t.shown (classes_in here.now) (sort_of sort.now) }
{
    if is_int(here, sort) {
        return true;
    }
    if is_char(here, sort) {
        return true;
    }
    is_text(here, sort)
}

/// Whether values of all sorts may stand in a text that is put together.
pub fn are_shown(here: &Here, sorts: &[Sort]) -> bool
    ensures { result ≡ t.all_shown (classes_in here.now) (sorts_of sorts.now) }
{
    'sorts: for sort in sorts {
        if !is_shown(here, sort) {
            return false;
        }
    }
    true
}

/// Whether every second sort, the first among them, is one of keys.
pub fn are_keys(pairs: &[Sort]) -> bool
    ensures { result ≡ all_keys (firsts (sorts_of pairs.now)) }
{
    let mut rest = pairs;
    'pairs: for _i in 0..pairs.len() {
        let Some((key, behind)) = rest.split_first() else {
            return true;
        };
        if !is_key(key) {
            return false;
        }
        let Some((_, more)) = behind.split_first() else {
            return true;
        };
        rest = more;
    }
    true
}

/// Whether a value may be added in place to what stands in a place.
fn may_add(here: &Here, place: &Sort, value: &Sort) -> bool
    ensures { result ≡ t.may_add (classes_in here.now) (sort_of place.now) (sort_of value.now) }
{
    match place {
        Sort::List(_) => is_fit(here, value, place),
        Sort::Int => is_int(here, value),
        Sort::Never => true,
        _ => false,
    }
}

/// Whether a value may be subtracted in place, or multiply what stands there.
fn may_count(here: &Here, place: &Sort, value: &Sort) -> bool
    ensures { result ≡ t.may_count (classes_in here.now) (sort_of place.now)
        (sort_of value.now) }
{
    match place {
        Sort::Int => is_int(here, value),
        Sort::Never => true,
        _ => false,
    }
}

/// Whether a value may be written in a mode where a value of a sort stands.
pub fn may_write(here: &Here, mode: u32, place: &Sort, value: &Sort) -> bool
    ensures { result ≡ t.may_write (classes_in here.now) mode (sort_of place.now)
        (sort_of value.now) }
{
    if mode == 0 {
        return is_fit(here, value, place);
    }
    if mode == 1 {
        return may_add(here, place, value);
    }
    may_count(here, place, value)
}

/// Whether a value may be sent by an event.
pub fn may_send(here: &Here, event: &Sort, value: &Sort) -> bool
    ensures { result ≡ t.may_send (classes_in here.now) (sort_of event.now) (sort_of value.now) }
{
    match event {
        Sort::Event(part) => is_fit(here, value, part),
        Sort::Never => true,
        _ => false,
    }
}
