//! Written types.

ghost use Rattle.std.specs.Prelude.{◌≡◌, IfOk, map};
ghost use Rattle.verse_tree.specs.Tree.{named};
ghost use Rattle.verse_tree.specs.Tree as t;
ghost use Rattle.std.specs.Option.{option_map};
ghost use Rattle.verse_tree.specs.View.{written_of, writtens, event_written};

use crate::written::{Written, Writtens, map_parts};
use sqlite_items::Boxed;
use std::alloc::Global;
use verse_base::places::Place;
use verse_base::refusals::Memory;
use verse_tree::names::Name;
use verse_tree::types::{TyExpr, TyName};

/// `int`
pub fn int() -> Written
    ensures { written_of result ≡ t.Written.int }
{
    Written::new(TyExpr::Int)
}

/// `logic`
pub fn logic() -> Written
    ensures { written_of result ≡ t.Written.logic }
{
    Written::new(TyExpr::Logic)
}

/// `char`
pub fn char() -> Written
    ensures { written_of result ≡ t.Written.char }
{
    Written::new(TyExpr::Char)
}

/// `string`
pub fn string() -> Written
    ensures { written_of result ≡ t.Written.string }
{
    Written::new(TyExpr::String)
}

/// `void`
pub fn void() -> Written
    ensures { written_of result ≡ t.Written.void }
{
    Written::new(TyExpr::Void)
}

/// `?t`
pub fn option_of(alloc: Global, content: Written) -> Result<Written, Memory>
    ensures { IfOk result (λ r. written_of r ≡ t.Written.option (written_of content)) }
{
    Ok(Written::new(TyExpr::Option(content.into_boxed(alloc)?)))
}

/// `[]t`
pub fn array_of(alloc: Global, element: Written) -> Result<Written, Memory>
    ensures { IfOk result (λ r. written_of r ≡ t.Written.array (written_of element)) }
{
    Ok(Written::new(TyExpr::Array(element.into_boxed(alloc)?)))
}

/// `tuple(t, u)`
pub fn tuple_of(parts: Writtens) -> Written
    ensures { written_of result ≡ t.Written.tuple (writtens (map written_of parts)) }
{
    Written::new(TyExpr::Tuple(parts.into_items()))
}

/// `task(t)`
pub fn task_of(alloc: Global, content: Written) -> Result<Written, Memory>
    ensures { IfOk result (λ r. written_of r ≡ t.Written.task (written_of content)) }
{
    Ok(Written::new(TyExpr::Task(content.into_boxed(alloc)?)))
}

/// `event(t)`
pub fn event_of(alloc: Global, content: Written) -> Result<Written, Memory>
    ensures { IfOk result (λ r. written_of r ≡ t.Written.event (written_of content)) }
{
    Ok(event_with(Some(content.into_boxed(alloc)?)))
}

/// `event()`
pub fn bare_event() -> Written
    ensures { written_of result ≡ t.Written.bare_event }
{
    Written::new(TyExpr::Event(None))
}

/// The name of a class or an enum.
pub fn named(place: Place, name: Name) -> Written
    ensures { written_of result ≡ named 0 place name }
{
    Written::new(TyExpr::Name(TyName {
        node: 0,
        place,
        name,
    }))
}

/// `[k]v`
pub fn map_of(alloc: Global, key: Written, value: Written) -> Result<Written, Memory>
    ensures { IfOk result (λ r. written_of r ≡ t.Written.map (written_of key) (written_of value)) }
{
    Ok(Written::new(TyExpr::Map(map_parts(alloc, key, value)?)))
}

fn event_with(content: Option<Boxed<TyExpr>>) -> Written
    ensures { written_of result ≡ event_written (option_map written_of content) }
{
    Written::new(TyExpr::Event(content))
}
