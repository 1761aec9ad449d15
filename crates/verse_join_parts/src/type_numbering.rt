//! Numbers the names in written types.

ghost use Rattle.std.specs.Prelude.{◌≡◌, ◌≤◌, ◌+◌, map, IfOk};
ghost use Rattle.std.specs.Option.{option_map};
ghost use Rattle.verse_tree.specs.Tree.{named};
ghost use Rattle.verse_tree.specs.Tree as t;
ghost use Rattle.verse_tree.specs.View.{written_of, writtens, event_written};
ghost use Rattle.verse_tree.specs.TypeView.{map_of};
ghost use Rattle.verse_tree.specs.Numbering.{written_nodes, writtens_nodes, written_numbered};
ghost use Rattle.verse_tree.specs.Numbering.{writtens_numbered};

use crate::copies::copied;
use sqlite_items::Boxed;
use std::alloc::Global;
use verse_base::refusals::Memory;
use verse_tree::types::{MapTy, TyExpr, TyName};
use verse_tree_nodes::types as made;
use verse_tree_nodes::written::{Written, Writtens};

/// A copy of the type with its names numbered from `next` on, and the number behind them.
#[cycle(number_type)]
pub fn number_type(alloc: Global, ty: &TyExpr, next: u32) -> Result<(Written, u32), Memory>
    requires fits { next + written_nodes (written_of ty.now) ≤ 4294967295 }
    ensures numbered { IfOk result
        (λ r. written_of r.0 ≡ written_numbered (written_of ty.now) next) }
    ensures behind { IfOk result (λ r. r.1 ≡ next + written_nodes (written_of ty.now)) }
{
    match ty {
        TyExpr::Int => Ok((made::int(), next)),
        TyExpr::Logic => Ok((made::logic(), next)),
        TyExpr::Char => Ok((made::char(), next)),
        TyExpr::String => Ok((made::string(), next)),
        TyExpr::Void => Ok((made::void(), next)),
        TyExpr::Name(name) => number_name(alloc, name, next),
        TyExpr::Option(part) => {
            let (part, behind) = number_type(alloc, part.get(), next)?;
            Ok((made::option_of(alloc, part)?, behind))
        }
        TyExpr::Array(part) => {
            let (part, behind) = number_type(alloc, part.get(), next)?;
            Ok((made::array_of(alloc, part)?, behind))
        }
        TyExpr::Map(parts) => number_map_type(alloc, parts, next),
        TyExpr::Tuple(parts) => {
            let (parts, behind) = number_types(alloc, parts.as_slice(), next)?;
            Ok((made::tuple_of(parts), behind))
        }
        TyExpr::Task(part) => {
            let (part, behind) = number_type(alloc, part.get(), next)?;
            Ok((made::task_of(alloc, part)?, behind))
        }
        TyExpr::Event(part) => number_event_type(alloc, part, next),
    }
}

fn number_name(alloc: Global, name: &TyName, node: u32) -> Result<(Written, u32), Memory>
    requires fits { node + 1 ≤ 4294967295 }
    ensures numbered { IfOk result (λ r. written_of r.0 ≡ named node name.now.place name.now.name) }
    ensures behind { IfOk result (λ r. r.1 ≡ node + 1) }
{
    let spelled = copied(alloc, &name.name)?;
    let name = TyName {
        node,
        place: name.place,
        name: spelled,
    };
    Ok((Written::new(TyExpr::Name(name)), node + 1))
}

#[cycle(number_type)]
fn number_event_type(
    alloc: Global,
    ty: &Option<Boxed<TyExpr>>,
    next: u32,
) -> Result<(Written, u32), Memory>
    requires fits { next + written_nodes (event_written (option_map written_of ty.now)) ≤
        4294967295 }
    ensures numbered { IfOk result
        (λ r. written_of r.0 ≡ written_numbered (event_written (option_map written_of ty.now))
        next) }
    ensures behind { IfOk result
        (λ r. r.1 ≡ next + written_nodes (event_written (option_map written_of ty.now))) }
{
    match ty {
        None => Ok((made::bare_event(), next)),
        Some(ty) => {
            let (ty, behind) = number_type(alloc, ty.get(), next)?;
            Ok((made::event_of(alloc, ty)?, behind))
        }
    }
}

#[cycle(number_type)]
fn number_map_type(alloc: Global, parts: &MapTy, next: u32) -> Result<(Written, u32), Memory>
    requires fits { next + (written_nodes (map_of parts.now).0 + written_nodes
        (map_of parts.now).1) ≤ 4294967295 }
    ensures numbered { IfOk result
        (λ r. written_of r.0 ≡ t.Written.map (written_numbered (map_of parts.now).0 next)
        (written_numbered (map_of parts.now).1 (next + written_nodes (map_of parts.now).0))) }
    ensures behind { IfOk result
        (λ r. r.1 ≡ next + (written_nodes (map_of parts.now).0 + written_nodes
        (map_of parts.now).1)) }
{
    let (key, middle) = number_type(alloc, parts.key.get(), next)?;
    let (value, behind) = number_type(alloc, parts.value.get(), middle)?;
    Ok((made::map_of(alloc, key, value)?, behind))
}

#[cycle(number_type)]
#[tactic(auto, using(verse_tree::proofs::Lists::writtens_listed))]
fn number_types(alloc: Global, parts: &[TyExpr], next: u32) -> Result<(Writtens, u32), Memory>
    requires fits { next + writtens_nodes (writtens (map written_of parts.now)) ≤ 4294967295 }
    ensures numbered { IfOk result (λ r. writtens (map written_of r.0) ≡
        writtens_numbered (writtens (map written_of parts.now)) next) }
    ensures behind { IfOk result
        (λ r. r.1 ≡ next + writtens_nodes (writtens (map written_of parts.now))) }
{
    let mut done = Writtens::new(alloc);
    let mut at = next;
    'parts: for part in parts {
        let (part, behind) = number_type(alloc, part, at)?;
        done.push(part)?;
        at = behind;
    }
    Ok((done, at))
}
