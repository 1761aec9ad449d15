//! What two types join to.

ghost use Rattle.std.specs.Prelude.{◌≡◌, map, IfOk, option_map};
ghost use Rattle.verse_rules_types.specs.Types.{ty_of, map_of, tys, classes_of};
ghost use Rattle.verse_rules_types.specs.Fitting.{join, all_joined};

use crate::classes::common_ancestor;
use crate::fitting::does_fit;
use sqlite_items::{Boxed, Items};
use std::alloc::Global;
use verse_base::refusals::Memory;
use verse_tree::tables::{ClassInfo, MapOf, Ty};

/// An equal type.
#[cycle(copy)]
pub fn copied(alloc: Global, ty: &Ty) -> Result<Ty, Memory>
    ensures { IfOk result (λ copy. ty_of copy ≡ ty_of ty.now) }
{
    match ty {
        Ty::Never => Ok(Ty::Never),
        Ty::Nil => Ok(Ty::Nil),
        Ty::Void => Ok(Ty::Void),
        Ty::Int => Ok(Ty::Int),
        Ty::Logic => Ok(Ty::Logic),
        Ty::Char => Ok(Ty::Char),
        Ty::Enum(e) => Ok(Ty::Enum(*e)),
        Ty::Class(c) => Ok(Ty::Class(*c)),
        Ty::Option(t) => Ok(Ty::Option(boxed(alloc, t.get())?)),
        Ty::Array(t) => Ok(Ty::Array(boxed(alloc, t.get())?)),
        Ty::Task(t) => Ok(Ty::Task(boxed(alloc, t.get())?)),
        Ty::Event(t) => Ok(Ty::Event(boxed(alloc, t.get())?)),
        Ty::Map(map) => Ok(Ty::Map(map_copied(alloc, map)?)),
        Ty::Tuple(ts) => Ok(Ty::Tuple(all_copied(alloc, ts.as_slice())?)),
    }
}

#[cycle(copy)]
fn boxed(alloc: Global, ty: &Ty) -> Result<Boxed<Ty>, Memory>
    ensures { IfOk result (λ copy. ty_of copy ≡ ty_of ty.now) }
{
    Ok(Boxed::new(alloc, copied(alloc, ty)?)?)
}

#[cycle(copy)]
fn map_copied(alloc: Global, map: &MapOf) -> Result<MapOf, Memory>
    ensures { IfOk result (λ copy. map_of copy ≡ map_of map.now) }
{
    let key = boxed(alloc, map.key.get())?;
    let value = boxed(alloc, map.value.get())?;
    Ok(MapOf { key, value })
}

#[cycle(copy)]
fn all_copied(alloc: Global, types: &[Ty]) -> Result<Items<Ty>, Memory>
    ensures { IfOk result (λ copies. map ty_of copies ≡ map ty_of types.now) }
{
    let mut copies = Items::new(alloc);
    for ty in types {
        copies.push(copied(alloc, ty)?)?;
    }
    Ok(copies)
}

/// The least type that both fit.
#[cycle(join)]
pub fn join_of(alloc: Global, classes: &[ClassInfo], ty: &Ty, other: &Ty) -> Result<Ty, Memory>
    ensures { IfOk result (λ r. ty_of r ≡ join (classes_of classes.now) (ty_of ty.now)
        (ty_of other.now)) }
{
    if does_fit(classes, ty, other) {
        return copied(alloc, other);
    }
    if does_fit(classes, other, ty) {
        return copied(alloc, ty);
    }
    match (ty, other) {
        (Ty::Class(c), Ty::Class(d)) => match common_ancestor(classes, *c, *d) {
            None => Ok(Ty::Void),
            Some(class) => Ok(Ty::Class(class)),
        },
        (Ty::Option(t), Ty::Option(u)) => {
            Ok(Ty::Option(box_of(alloc, classes, t.get(), u.get())?))
        }
        (Ty::Array(t), Ty::Array(u)) => Ok(Ty::Array(box_of(alloc, classes, t.get(), u.get())?)),
        (Ty::Task(t), Ty::Task(u)) => Ok(Ty::Task(box_of(alloc, classes, t.get(), u.get())?)),
        (Ty::Map(map), Ty::Map(more)) => Ok(Ty::Map(map_joined(alloc, classes, map, more)?)),
        (Ty::Tuple(ts), Ty::Tuple(us)) => {
            match all_joined(alloc, classes, ts.as_slice(), us.as_slice())? {
                Some(types) => Ok(Ty::Tuple(types)),
                None => Ok(Ty::Void),
            }
        }
        _ => Ok(Ty::Void),
    }
}

#[cycle(join)]
fn box_of(alloc: Global, classes: &[ClassInfo], ty: &Ty, other: &Ty) -> Result<Boxed<Ty>, Memory>
    ensures { IfOk result (λ r. ty_of r ≡ join (classes_of classes.now) (ty_of ty.now)
        (ty_of other.now)) }
{
    Ok(Boxed::new(alloc, join_of(alloc, classes, ty, other)?)?)
}

#[cycle(join)]
fn map_joined(
    alloc: Global,
    classes: &[ClassInfo],
    map: &MapOf,
    other: &MapOf,
) -> Result<MapOf, Memory>
    ensures key { IfOk result (λ r. (map_of r).0 ≡ join (classes_of classes.now) (map_of map.now).0
        (map_of other.now).0) }
    ensures value { IfOk result (λ r. (map_of r).1 ≡
        join (classes_of classes.now) (map_of map.now).1 (map_of other.now).1) }
{
    let key = box_of(alloc, classes, map.key.get(), other.key.get())?;
    let value = box_of(alloc, classes, map.value.get(), other.value.get())?;
    Ok(MapOf { key, value })
}

/// The parts joined one by one, where they are as many.
#[cycle(join)]
fn all_joined(
    alloc: Global,
    classes: &[ClassInfo],
    types: &[Ty],
    others: &[Ty],
) -> Result<Option<Items<Ty>>, Memory>
    ensures { IfOk result (λ r. option_map (λ ts. tys (map ty_of ts)) r ≡
        all_joined (classes_of classes.now) (tys (map ty_of types.now))
        (tys (map ty_of others.now))) }
{
    let mut joined = Items::new(alloc);
    let mut rest = others;
    for ty in types {
        let Some((other, more)) = rest.split_first() else {
            return Ok(None);
        };
        joined.push(join_of(alloc, classes, ty, other)?)?;
        rest = more;
    }
    match rest.split_first() {
        None => Ok(Some(joined)),
        Some(_) => Ok(None),
    }
}
