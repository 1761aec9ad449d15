//! Which types fit which.

ghost use Rattle.std.specs.Prelude.{◌≡◌, map};
ghost use Rattle.verse_rules_types.specs.Types.{ty_of, tys, classes_of};
ghost use Rattle.verse_rules_types.specs.Fitting.{is_same, all_same, fits, all_fit};

use crate::classes::does_inherit;
use verse_tree::tables::{ClassInfo, Ty};

/// Whether two types are the same.
#[cycle(same)]
pub fn is_same(ty: &Ty, other: &Ty) -> bool
    ensures { result ≡ is_same (ty_of ty.now) (ty_of other.now) }
{
    match (ty, other) {
        (Ty::Never, Ty::Never) => true,
        (Ty::Nil, Ty::Nil) => true,
        (Ty::Void, Ty::Void) => true,
        (Ty::Int, Ty::Int) => true,
        (Ty::Logic, Ty::Logic) => true,
        (Ty::Char, Ty::Char) => true,
        (Ty::Enum(e), Ty::Enum(f)) => e == f,
        (Ty::Class(c), Ty::Class(d)) => c == d,
        (Ty::Option(t), Ty::Option(u)) => is_same(t.get(), u.get()),
        (Ty::Array(t), Ty::Array(u)) => is_same(t.get(), u.get()),
        (Ty::Task(t), Ty::Task(u)) => is_same(t.get(), u.get()),
        (Ty::Event(t), Ty::Event(u)) => is_same(t.get(), u.get()),
        (Ty::Map(m), Ty::Map(n)) => {
            is_same(m.key.get(), n.key.get()) && is_same(m.value.get(), n.value.get())
        }
        (Ty::Tuple(ts), Ty::Tuple(us)) => are_same(ts.as_slice(), us.as_slice()),
        _ => false,
    }
}

#[cycle(same)]
fn are_same(types: &[Ty], others: &[Ty]) -> bool
    ensures { result ≡ all_same (tys (map ty_of types.now)) (tys (map ty_of others.now)) }
{
    let mut rest = others;
    for ty in types {
        let Some((other, more)) = rest.split_first() else {
            return false;
        };
        if !is_same(ty, other) {
            return false;
        }
        rest = more;
    }
    match rest.split_first() {
        None => true,
        Some(_) => false,
    }
}

/// Whether a value of a type may stand where one of another is wanted.
#[cycle(fit)]
pub fn does_fit(classes: &[ClassInfo], ty: &Ty, other: &Ty) -> bool
    ensures { result ≡ fits (classes_of classes.now) (ty_of ty.now) (ty_of other.now) }
{
    match (ty, other) {
        (Ty::Never, _) => true,
        (_, Ty::Void) => true,
        (Ty::Nil, Ty::Nil) => true,
        (Ty::Nil, Ty::Logic) => true,
        (Ty::Nil, Ty::Option(_)) => true,
        (Ty::Int, Ty::Int) => true,
        (Ty::Logic, Ty::Logic) => true,
        (Ty::Char, Ty::Char) => true,
        (Ty::Enum(e), Ty::Enum(f)) => e == f,
        (Ty::Event(t), Ty::Event(u)) => is_same(t.get(), u.get()),
        (Ty::Class(c), Ty::Class(d)) => does_inherit(classes, *c, *d),
        (Ty::Option(t), Ty::Option(u)) => does_fit(classes, t.get(), u.get()),
        (Ty::Array(t), Ty::Array(u)) => does_fit(classes, t.get(), u.get()),
        (Ty::Task(t), Ty::Task(u)) => does_fit(classes, t.get(), u.get()),
        (Ty::Map(m), Ty::Map(n)) => {
            does_fit(classes, m.key.get(), n.key.get())
                && does_fit(classes, m.value.get(), n.value.get())
        }
        (Ty::Tuple(ts), Ty::Tuple(us)) => do_fit(classes, ts.as_slice(), us.as_slice()),
        _ => false,
    }
}

#[cycle(fit)]
fn do_fit(classes: &[ClassInfo], types: &[Ty], others: &[Ty]) -> bool
    ensures { result ≡ all_fit (classes_of classes.now) (tys (map ty_of types.now))
        (tys (map ty_of others.now)) }
{
    let mut rest = others;
    for ty in types {
        let Some((other, more)) = rest.split_first() else {
            return false;
        };
        if !does_fit(classes, ty, other) {
            return false;
        }
        rest = more;
    }
    match rest.split_first() {
        None => true,
        Some(_) => false,
    }
}
