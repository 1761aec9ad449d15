//! Keys, equality and levels.

ghost use Rattle.std.specs.Prelude.{◌≡◌, map, min};
ghost use Rattle.verse_rules_types.specs.Types.{ty_of, tys, classes_of};
ghost use Rattle.verse_rules_types.specs.Kinds.{is_key, is_comparable, all_comparable, levels};
ghost use Rattle.verse_rules_types.specs.Kinds.{most_levels};

use crate::classes::is_unique;
use verse_tree::tables::{ClassInfo, Ty};

/// The greatest number of levels of a type.
pub const MOST_LEVELS: u32 = 32;

/// Whether values of the type may be keys of maps.
pub fn is_key(ty: &Ty) -> bool
    ensures { result ≡ is_key (ty_of ty.now) }
{
    match ty {
        Ty::Never | Ty::Nil | Ty::Int | Ty::Logic | Ty::Char | Ty::Enum(_) => true,
        Ty::Array(part) => matches!(part.get(), Ty::Char),
        _ => false,
    }
}

/// Whether values of the type have equality.
#[cycle(comparable)]
pub fn is_comparable(classes: &[ClassInfo], ty: &Ty) -> bool
    ensures { result ≡ is_comparable (classes_of classes.now) (ty_of ty.now) }
{
    match ty {
        Ty::Never | Ty::Nil | Ty::Int | Ty::Logic | Ty::Char | Ty::Enum(_) => true,
        Ty::Class(class) => is_unique(classes, *class),
        Ty::Option(part) => is_comparable(classes, part.get()),
        Ty::Array(part) => is_comparable(classes, part.get()),
        Ty::Map(map) => {
            is_comparable(classes, map.key.get()) && is_comparable(classes, map.value.get())
        }
        Ty::Tuple(parts) => are_comparable(classes, parts.as_slice()),
        _ => false,
    }
}

#[cycle(comparable)]
fn are_comparable(classes: &[ClassInfo], types: &[Ty]) -> bool
    ensures { result ≡ all_comparable (classes_of classes.now) (tys (map ty_of types.now)) }
{
    for ty in types {
        if !is_comparable(classes, ty) {
            return false;
        }
    }
    true
}

/// How deep the type nests; 4294967295 where it is more.
#[cycle(levels)]
pub fn levels(ty: &Ty) -> u32
    ensures { result ≡ min (levels (ty_of ty.now)) 4294967295 }
{
    match ty {
        Ty::Option(part) => levels(part.get()).saturating_add(1),
        Ty::Array(part) => levels(part.get()).saturating_add(1),
        Ty::Task(part) => levels(part.get()).saturating_add(1),
        Ty::Event(part) => levels(part.get()).saturating_add(1),
        Ty::Map(map) => {
            let key = levels(map.key.get());
            let value = levels(map.value.get());
            key.max(value).saturating_add(1)
        }
        Ty::Tuple(parts) => most_levels(parts.as_slice()).saturating_add(1),
        _ => 1,
    }
}

#[cycle(levels)]
fn most_levels(types: &[Ty]) -> u32
    ensures { result ≡ min (most_levels (tys (map ty_of types.now))) 4294967295 }
{
    let mut most = 0;
    for ty in types {
        most = levels(ty).max(most);
    }
    most
}
