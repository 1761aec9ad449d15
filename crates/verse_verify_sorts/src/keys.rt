//! Which sorts are those of keys.

ghost use Rattle.std.specs.Prelude.{◌≡◌};
ghost use Rattle.verse_verify_faults.specs.Fitting.{is_char, is_key};
ghost use Rattle.verse_verify_notes.specs.View.{sort_of};

use verse_verify_notes::sorts::Sort;

/// Whether a sort is that of chars.
pub fn is_char(sort: &Sort) -> bool
    ensures { result ≡ is_char (sort_of sort.now) }
{
    match sort {
        Sort::Char => true,
        _ => false,
    }
}

/// Whether values of a sort may be keys.
pub fn is_key(sort: &Sort) -> bool
    ensures { result ≡ is_key (sort_of sort.now) }
{
    match sort {
        Sort::Never => true,
        Sort::Nil => true,
        Sort::Int => true,
        Sort::Logic => true,
        Sort::Char => true,
        Sort::Enum(_) => true,
        Sort::List(part) => is_char(part),
        _ => false,
    }
}
