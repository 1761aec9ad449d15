//! Which sorts are the same.

ghost use Rattle.std.specs.Prelude.{◌≡◌};
ghost use Rattle.verse_verify_kept.specs.Rules.{sorts};
ghost use Rattle.verse_verify_faults.specs.Fitting.{same, same_all};
ghost use Rattle.verse_verify_notes.specs.View.{sort_of, sorts_of};

use crate::numbers::is_number;
use verse_verify_notes::sorts::Sort;

/// Whether two sorts are the same.
#[cycle(same)]
pub fn is_same(sort: &Sort, other: &Sort) -> bool
    ensures { result ≡ same (sort_of sort.now) (sort_of other.now) }
{
    match (sort, other) {
        (Sort::None, Sort::None) => true,
        (Sort::Any, Sort::Any) => true,
        (Sort::Never, Sort::Never) => true,
        (Sort::Unit, Sort::Unit) => true,
        (Sort::Nil, Sort::Nil) => true,
        (Sort::Int, Sort::Int) => true,
        (Sort::Logic, Sort::Logic) => true,
        (Sort::Char, Sort::Char) => true,
        (Sort::Span, Sort::Span) => true,
        (Sort::Enum(d), Sort::Enum(e)) => is_number(*d, *e),
        (Sort::Object(c), Sort::Object(d)) => is_number(*c, *d),
        (Sort::Var(a), Sort::Var(b)) => is_same(a, b),
        (Sort::Event(a), Sort::Event(b)) => is_same(a, b),
        (Sort::Task(a), Sort::Task(b)) => is_same(a, b),
        (Sort::Option(a), Sort::Option(b)) => is_same(a, b),
        (Sort::List(a), Sort::List(b)) => is_same(a, b),
        (Sort::Map(k, a), Sort::Map(l, b)) => is_same(k, l) && is_same(a, b),
        (Sort::Tuple(xs), Sort::Tuple(ys)) => are_same(xs.as_slice(), ys.as_slice()),
        _ => false,
    }
}

/// Whether sorts are the same as others, one by one.
#[cycle(same)]
pub fn are_same(all: &[Sort], others: &[Sort]) -> bool
    ensures { result ≡ same_all (sorts (sorts_of all.now)) (sorts (sorts_of others.now)) }
{
    let mut rest = others;
    'sorts: for sort in all {
        let Some((other, more)) = rest.split_first() else {
            return false;
        };
        if !is_same(sort, other) {
            return false;
        }
        rest = more;
    }
    match rest.split_first() {
        None => true,
        Some(_) => false,
    }
}
