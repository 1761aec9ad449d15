//! Which sorts have no value.

ghost use Rattle.std.specs.Prelude.{◌≡◌};
ghost use Rattle.verse_verify_faults.specs.Fitting.{is_never, any_never};
ghost use Rattle.verse_verify_notes.specs.View.{sort_of, sorts_of};

use verse_verify_notes::sorts::Sort;

/// Whether no value is of a sort.
fn is_never(sort: &Sort) -> bool
    ensures { result ≡ is_never (sort_of sort.now) }
{
    match sort {
        Sort::Never => true,
        _ => false,
    }
}

/// Whether no value is of one of these sorts.
pub fn any_never(sorts: &[Sort]) -> bool
    ensures { result ≡ any_never (sorts_of sorts.now) }
{
    'sorts: for sort in sorts {
        if is_never(sort) {
            return true;
        }
    }
    false
}
