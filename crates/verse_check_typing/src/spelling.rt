//! The types that written types spell.

ghost use Rattle.std.specs.Prelude.{◌≡◌, map, IfOk};
ghost use Rattle.verse_tree.specs.View.{written_of, writtens};
ghost use Rattle.verse_tree.specs.TypeView as written;
ghost use Rattle.verse_rules_types.specs.Types.{ty_of, map_of, tys};
ghost use Rattle.verse_names_tables.specs.Functions as functions;
ghost use Rattle.verse_check_typing.specs.Spelling.{spelled_by, all_spelled_by};
ghost use Rattle.verse_check_typing.specs.Rows as rows;
ghost use Rattle.verse_check_typing.specs.Views.{facts_of};

use crate::facts::Facts;
use crate::lookups::ref_at;
use sqlite_items::{Boxed, Items};
use std::alloc::Global;
use verse_base::refusals::Memory;
use verse_tree::tables::{MapOf, Ref, Ty};
use verse_tree::types::{MapTy, TyExpr};

/// The type that a name stands for; never where it is none of a class or an enum.
pub fn named_type(named: Option<Ref>) -> Ty
    ensures { ty_of result ≡ functions.named_type named }
{
    match named {
        Some(Ref::Class(class)) => Ty::Class(class),
        Some(Ref::Enum(of)) => Ty::Enum(of),
        _ => Ty::Never,
    }
}

#[cycle(spelled)]
fn spelled_by(alloc: Global, refs: &[Option<Ref>], ty: &TyExpr) -> Result<Ty, Memory>
    ensures { IfOk result (λ t. ty_of t ≡ spelled_by refs.now (written_of ty.now)) }
{
    match ty {
        TyExpr::Int => Ok(Ty::Int),
        TyExpr::Logic => Ok(Ty::Logic),
        TyExpr::Char => Ok(Ty::Char),
        TyExpr::String => Ok(Ty::Array(Boxed::new(alloc, Ty::Char)?)),
        TyExpr::Void => Ok(Ty::Void),
        TyExpr::Name(name) => Ok(named_type(ref_at(refs, name.node))),
        TyExpr::Option(part) => Ok(Ty::Option(boxed(alloc, refs, part.get())?)),
        TyExpr::Array(part) => Ok(Ty::Array(boxed(alloc, refs, part.get())?)),
        TyExpr::Task(part) => Ok(Ty::Task(boxed(alloc, refs, part.get())?)),
        TyExpr::Map(parts) => Ok(Ty::Map(map_spelled(alloc, refs, parts)?)),
        TyExpr::Tuple(parts) => Ok(Ty::Tuple(all_spelled(alloc, refs, parts.as_slice())?)),
        TyExpr::Event(None) => Ok(Ty::Event(Boxed::new(alloc, Ty::Void)?)),
        TyExpr::Event(Some(part)) => Ok(Ty::Event(boxed(alloc, refs, part.get())?)),
    }
}

#[cycle(spelled)]
fn boxed(alloc: Global, refs: &[Option<Ref>], ty: &TyExpr) -> Result<Boxed<Ty>, Memory>
    ensures { IfOk result (λ t. ty_of t ≡ spelled_by refs.now (written_of ty.now)) }
{
    Ok(Boxed::new(alloc, spelled_by(alloc, refs, ty)?)?)
}

#[cycle(spelled)]
fn map_spelled(alloc: Global, refs: &[Option<Ref>], parts: &MapTy) -> Result<MapOf, Memory>
    ensures key { IfOk result (λ t. (map_of t).0 ≡
        spelled_by refs.now (written.map_of parts.now).0) }
    ensures value { IfOk result (λ t. (map_of t).1 ≡
        spelled_by refs.now (written.map_of parts.now).1) }
{
    let key = boxed(alloc, refs, parts.key.get())?;
    let value = boxed(alloc, refs, parts.value.get())?;
    Ok(MapOf { key, value })
}

#[cycle(spelled)]
#[tactic(auto, using(crate::proofs::Spelled::all_spelled_map))]
fn all_spelled(alloc: Global, refs: &[Option<Ref>], parts: &[TyExpr]) -> Result<Items<Ty>, Memory>
    ensures { IfOk result (λ ts. tys (map ty_of ts) ≡
        all_spelled_by refs.now (writtens (map written_of parts.now))) }
{
    each_spelled(alloc, refs, parts)
}

#[cycle(spelled)]
fn each_spelled(alloc: Global, refs: &[Option<Ref>], parts: &[TyExpr]) -> Result<Items<Ty>, Memory>
    ensures { IfOk result (λ ts. map ty_of ts ≡
        map (spelled_by refs.now) (map written_of parts.now)) }
{
    let mut found = Items::new(alloc);
    'parts: for part in parts {
        found.push(spelled_by(alloc, refs, part)?)?;
    }
    Ok(found)
}

/// The type that is spelled.
pub fn spelled(facts: &Facts<'_, '_>, ty: &TyExpr) -> Result<Ty, Memory>
    ensures { IfOk result (λ t. ty_of t ≡ rows.spelled (facts_of facts.now) (written_of ty.now)) }
{
    spelled_by(facts.world.alloc, facts.world.names.refs.as_slice(), ty)
}
