//! Which sorts fit which.

ghost use Rattle.std.specs.Prelude.{◌≡◌};
ghost use Rattle.verse_verify_kept.specs.Rules.{sorts};
ghost use Rattle.verse_verify_faults.specs.Fitting.{fit, fit_each, all_fit, each_fit};
ghost use Rattle.verse_verify_notes.specs.View.{sort_of, sorts_of, classes_of};

use crate::classes::is_heir;
use crate::numbers::is_number;
use crate::sameness::is_same;
use verse_verify_notes::notes::ClassNote;
use verse_verify_notes::sorts::Sort;

/// Whether a value of a sort may stand where one of another is wanted.
#[cycle(fit)]
pub fn does_fit(classes: &[ClassNote], sort: &Sort, other: &Sort) -> bool
    ensures { result ≡ fit (classes_of classes.now) (sort_of sort.now) (sort_of other.now) }
{
    match (sort, other) {
        (Sort::Never, _) => true,
        (_, Sort::None) => true,
        (Sort::None, _) => false,
        (_, Sort::Any) => true,
        (Sort::Unit, Sort::Unit) => true,
        (Sort::Unit, Sort::Span) => true,
        (Sort::Nil, Sort::Nil) => true,
        (Sort::Nil, Sort::Logic) => true,
        (Sort::Nil, Sort::Option(_)) => true,
        (Sort::Int, Sort::Int) => true,
        (Sort::Int, Sort::Span) => true,
        (Sort::Logic, Sort::Logic) => true,
        (Sort::Char, Sort::Char) => true,
        (Sort::Span, Sort::Span) => true,
        (Sort::Enum(d), Sort::Enum(e)) => is_number(*d, *e),
        (Sort::Object(c), Sort::Object(d)) => is_heir(classes, *c, *d),
        (Sort::Var(a), Sort::Var(b)) => is_same(a, b),
        (Sort::Event(a), Sort::Event(b)) => is_same(a, b),
        (Sort::Task(a), Sort::Task(b)) => does_fit(classes, a, b),
        (Sort::Option(a), Sort::Option(b)) => does_fit(classes, a, b),
        (Sort::List(a), Sort::List(b)) => does_fit(classes, a, b),
        (Sort::Map(k, a), Sort::Map(l, b)) => { does_fit(classes, k, l) && does_fit(classes, a, b) }
        (Sort::Tuple(xs), Sort::Tuple(ys)) => parts_fit(classes, xs.as_slice(), ys.as_slice()),
        _ => false,
    }
}

/// Whether the parts of a tuple fit those of another, one by one.
#[cycle(fit)]
pub fn parts_fit(classes: &[ClassNote], parts: &[Sort], others: &[Sort]) -> bool
    ensures { result ≡ fit_each (classes_of classes.now) (sorts (sorts_of parts.now))
        (sorts (sorts_of others.now)) }
{
    let mut rest = others;
    'parts: for part in parts {
        let Some((other, more)) = rest.split_first() else {
            return false;
        };
        if !does_fit(classes, part, other) {
            return false;
        }
        rest = more;
    }
    match rest.split_first() {
        None => true,
        Some(_) => false,
    }
}

/// Whether all sorts fit one.
pub fn do_all_fit(classes: &[ClassNote], all: &[Sort], other: &Sort) -> bool
    ensures { result ≡ all_fit (classes_of classes.now) (sorts_of all.now) (sort_of other.now) }
{
    'sorts: for sort in all {
        if !does_fit(classes, sort, other) {
            return false;
        }
    }
    true
}

/// Whether sorts fit others, one by one.
pub fn does_each_fit(classes: &[ClassNote], all: &[Sort], others: &[Sort]) -> bool
    ensures { result ≡ each_fit (classes_of classes.now) (sorts_of all.now) (sorts_of others.now) }
{
    let mut rest = others;
    'sorts: for sort in all {
        let Some((other, more)) = rest.split_first() else {
            return false;
        };
        if !does_fit(classes, sort, other) {
            return false;
        }
        rest = more;
    }
    match rest.split_first() {
        None => true,
        Some(_) => false,
    }
}
