//! Sorts are written.

ghost use Rattle.std.specs.Prelude.{◌≡◌, [], ◌∷◌, ◌++◌, IfSome, OnOk, option_map};
ghost use Rattle.verse_verify_bytes.specs.Bytes.{each, counted, option, sort};
ghost use Rattle.verse_verify_notes.specs.View.{sort_of, sorts_of};
ghost use Rattle.verse_verify_writer.specs.Tags.{tag_of};

use crate::numbers::{push_byte, push_count, push_number};
use verse_base::refusals::Memory;
use verse_verify_notes::sorts::Sort;

fn tag(value: &Sort) -> u8
    ensures { result ≡ tag_of (sort_of value.now) }
{
    match value {
        Sort::None => 0,
        Sort::Any => 1,
        Sort::Never => 2,
        Sort::Unit => 3,
        Sort::Nil => 4,
        Sort::Int => 5,
        Sort::Logic => 6,
        Sort::Char => 7,
        Sort::Span => 8,
        Sort::Enum(_) => 9,
        Sort::Object(_) => 10,
        Sort::Var(_) => 11,
        Sort::Event(_) => 12,
        Sort::Task(_) => 13,
        Sort::Option(_) => 14,
        Sort::List(_) => 15,
        Sort::Map(_, _) => 16,
        Sort::Tuple(_) => 17,
    }
}

/// The tag of a sort that has no parts and no number.
fn plain_tag(value: &Sort) -> Option<u8>
    ensures { IfSome result (λ t. sort (sort_of value.now) ≡ t ∷ []) }
{
    match value {
        Sort::None => Some(0),
        Sort::Any => Some(1),
        Sort::Never => Some(2),
        Sort::Unit => Some(3),
        Sort::Nil => Some(4),
        Sort::Int => Some(5),
        Sort::Logic => Some(6),
        Sort::Char => Some(7),
        Sort::Span => Some(8),
        _ => None,
    }
}

/// Writes a sort: its tag, and then its parts, with a call for each of its levels.
#[cycle(push_sort)]
pub(crate) fn push_sort(out: &mut Vec<u8>, value: &Sort) -> Result<(), Memory>
    ensures { OnOk result (out.new.items ≡ out.old.items ++ sort (sort_of value.now)) }
{
    push_byte(out, tag(value))?;
    match value {
        Sort::None
        | Sort::Any
        | Sort::Never
        | Sort::Unit
        | Sort::Nil
        | Sort::Int
        | Sort::Logic
        | Sort::Char
        | Sort::Span => Ok(()),
        Sort::Enum(of) => push_number(out, u64::from(*of)),
        Sort::Object(class) => push_number(out, u64::from(*class)),
        Sort::Var(part) => push_sort(out, part),
        Sort::Event(part) => push_sort(out, part),
        Sort::Task(part) => push_sort(out, part),
        Sort::Option(part) => push_sort(out, part),
        Sort::List(part) => push_sort(out, part),
        Sort::Map(key, part) => {
            push_sort(out, key)?;
            push_sort(out, part)
        }
        Sort::Tuple(parts) => {
            push_count(out, parts.len())?;
            push_parts(out, parts.as_slice())?;
            Ok(())
        }
    }
}

#[cycle(push_sort)]
fn push_parts(out: &mut Vec<u8>, parts: &[Sort]) -> Result<(), Memory>
    ensures { OnOk result (out.new.items ≡ out.old.items ++ each sort (sorts_of parts.now)) }
{
    'parts: for part in parts {
        match plain_tag(part) {
            Some(tag) => push_byte(out, tag)?,
            None => push_sort(out, part)?,
        }
    }
    Ok(())
}

/// Writes each of these sorts.
pub(crate) fn push_sorts(out: &mut Vec<u8>, sorts: &[Sort]) -> Result<(), Memory>
    ensures { OnOk result (out.new.items ≡ out.old.items ++ each sort (sorts_of sorts.now)) }
{
    push_parts(out, sorts)
}

/// Writes how many sorts there are, and then each.
pub(crate) fn push_counted(out: &mut Vec<u8>, sorts: &[Sort]) -> Result<(), Memory>
    ensures { OnOk result (out.new.items ≡ out.old.items ++ counted sort (sorts_of sorts.now)) }
{
    push_count(out, sorts.len())?;
    push_parts(out, sorts)
}

/// Writes 0 for none, or 1 and the sort.
pub(crate) fn push_maybe(out: &mut Vec<u8>, value: &Option<Sort>) -> Result<(), Memory>
    ensures { OnOk result (out.new.items ≡ out.old.items ++
        option sort (option_map sort_of value.now)) }
{
    match value {
        None => push_byte(out, 0),
        Some(value) => {
            push_byte(out, 1)?;
            push_sort(out, value)
        }
    }
}
