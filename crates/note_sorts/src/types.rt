//! The sort of a type.

ghost use Rattle.std.specs.Prelude.{◌≡◌, IfOk, map};
ghost use Rattle.verse_sorts.specs.Sorts.{map as mapping};
ghost use Rattle.verse_rules_types.specs.Types.{ty_of, map_of};
ghost use Rattle.verse_sorts_types.specs.SortOf as t;
ghost use Rattle.verse_verify_notes.specs.View.{sort_of, sorts_of};
ghost use Rattle.note_sorts.specs.Tabled.{made_sort};

use std::alloc::Global;
use std::rc::Rc;
use verse_base::refusals::Memory;
use verse_tree::tables::{MapOf, Ty};
use verse_verify_notes::sorts::Sort;

/// The sort of a type, with a call for each of its levels.
#[cycle(sort)]
pub fn sort_of(alloc: Global, ty: &Ty) -> Result<Sort, Memory>
    ensures { IfOk result (λ r. sort_of r ≡ t.sort_of (ty_of ty.now)) }
{
    match ty {
        Ty::Never => Ok(Sort::Never),
        Ty::Nil => Ok(Sort::Nil),
        Ty::Void => Ok(Sort::Any),
        Ty::Int => Ok(Sort::Int),
        Ty::Logic => Ok(Sort::Logic),
        Ty::Char => Ok(Sort::Char),
        Ty::Enum(of) => Ok(Sort::Enum(*of)),
        Ty::Class(class) => Ok(Sort::Object(*class)),
        Ty::Option(part) => Ok(Sort::Option(shared(alloc, part.get())?)),
        Ty::Array(part) => Ok(Sort::List(shared(alloc, part.get())?)),
        Ty::Task(part) => Ok(Sort::Task(shared(alloc, part.get())?)),
        Ty::Event(part) => Ok(Sort::Event(shared(alloc, part.get())?)),
        Ty::Map(parts) => Ok(map_sort(alloc, parts)?),
        Ty::Tuple(parts) => Ok(Sort::Tuple(Rc::new(alloc, sorts_of(alloc, parts.as_slice())?)?)),
    }
}

#[cycle(sort)]
fn shared(alloc: Global, ty: &Ty) -> Result<Rc<Sort>, Memory>
    ensures { IfOk result (λ r. sort_of r.value ≡ t.sort_of (ty_of ty.now)) }
{
    Ok(Rc::new(alloc, sort_of(alloc, ty)?)?)
}

#[cycle(sort)]
fn map_sort(alloc: Global, parts: &MapOf) -> Result<Sort, Memory>
    ensures { IfOk result (λ r. sort_of r ≡
        mapping (t.sort_of (map_of parts.now).0) (t.sort_of (map_of parts.now).1)) }
{
    let key = shared(alloc, parts.key.get())?;
    let value = shared(alloc, parts.value.get())?;
    Ok(Sort::Map(key, value))
}

/// The sorts of types.
#[cycle(sort)]
pub fn sorts_of(alloc: Global, types: &[Ty]) -> Result<Vec<Sort>, Memory>
    ensures { IfOk result (λ r. sorts_of r.items ≡ map made_sort types.now) }
{
    let mut sorts = Vec::new(alloc);
    'types: for ty in types {
        sorts.push(sort_of(alloc, ty)?)?;
    }
    Ok(sorts)
}
