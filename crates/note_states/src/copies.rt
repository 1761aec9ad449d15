//! Copies of sorts.

ghost use Rattle.std.specs.Prelude.{◌≡◌, IfOk};
ghost use Rattle.std.specs.Option.{option_map};
ghost use Rattle.verse_verify_notes.specs.View.{sort_of, sorts_of};

use std::alloc::Global;
use verse_base::refusals::Memory;
use verse_verify_notes::notes::Mark;
use verse_verify_notes::sorts::Sort;

/// A copy of a sort, which shares its parts.
pub fn copy_sort(sort: &Sort) -> Result<Sort, Memory>
    ensures { IfOk result (λ r. sort_of r ≡ sort_of sort.now) }
{
    match sort {
        Sort::None => Ok(Sort::None),
        Sort::Any => Ok(Sort::Any),
        Sort::Never => Ok(Sort::Never),
        Sort::Unit => Ok(Sort::Unit),
        Sort::Nil => Ok(Sort::Nil),
        Sort::Int => Ok(Sort::Int),
        Sort::Logic => Ok(Sort::Logic),
        Sort::Char => Ok(Sort::Char),
        Sort::Span => Ok(Sort::Span),
        Sort::Enum(of) => Ok(Sort::Enum(*of)),
        Sort::Object(class) => Ok(Sort::Object(*class)),
        Sort::Var(part) => Ok(Sort::Var(part.clone()?)),
        Sort::Event(part) => Ok(Sort::Event(part.clone()?)),
        Sort::Task(part) => Ok(Sort::Task(part.clone()?)),
        Sort::Option(part) => Ok(Sort::Option(part.clone()?)),
        Sort::List(part) => Ok(Sort::List(part.clone()?)),
        Sort::Map(key, part) => {
            let key = key.clone()?;
            let part = part.clone()?;
            Ok(Sort::Map(key, part))
        }
        Sort::Tuple(parts) => Ok(Sort::Tuple(parts.clone()?)),
    }
}

/// A copy of sorts.
pub fn copy_sorts(alloc: Global, sorts: &[Sort]) -> Result<Vec<Sort>, Memory>
    ensures { IfOk result (λ r. sorts_of r.items ≡ sorts_of sorts.now) }
{
    let mut copies = Vec::with_capacity(alloc, sorts.len())?;
    'sorts: for sort in sorts {
        copies.push(copy_sort(sort)?)?;
    }
    Ok(copies)
}

/// A copy of the marks of Trys.
pub(crate) fn copy_marks(alloc: Global, marks: &[Mark]) -> Result<Vec<Mark>, Memory>
    ensures { IfOk result (λ r. r.items ≡ marks.now) }
{
    let mut copies = Vec::new(alloc);
    copies.extend_from_slice(marks)?;
    Ok(copies)
}

/// A copy of numbers.
pub(crate) fn copy_numbers(alloc: Global, numbers: &[u32]) -> Result<Vec<u32>, Memory>
    ensures { IfOk result (λ r. r.items ≡ numbers.now) }
{
    let mut copies = Vec::new(alloc);
    copies.extend_from_slice(numbers)?;
    Ok(copies)
}

/// A copy of a sort or none.
pub(crate) fn copy_arm(arm: &Option<Sort>) -> Result<Option<Sort>, Memory>
    ensures { IfOk result (λ r. option_map sort_of r ≡ option_map sort_of arm.now) }
{
    match arm {
        None => Ok(None),
        Some(sort) => Ok(Some(copy_sort(sort)?)),
    }
}
