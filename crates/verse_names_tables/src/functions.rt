//! The types that written types spell, and what is known of functions and methods.

ghost use Rattle.std.specs.Prelude.{◌≡◌, ◌++◌, map, option_map, IfOk, OnOk};
ghost use Rattle.verse_tree.specs.View.{written_of, writtens, event_written};
ghost use Rattle.verse_tree.specs.TypeView as written;
ghost use Rattle.verse_tree.specs.ItemView.{fun_of, param_of};
ghost use Rattle.verse_rules_types.specs.Types.{ty_of, map_of, tys};
ghost use Rattle.verse_names_tables.specs.Names.{look};
ghost use Rattle.verse_names_tables.specs.Views.{table_of};
ghost use Rattle.verse_names_tables.specs.Functions.{named_type, spelled, all_spelled};
ghost use Rattle.verse_names_tables.specs.Functions.{function_of};
ghost use Rattle.verse_names_tables.specs.Functions.{fun_function, param_type};

use crate::dictionaries::Dict;
use crate::words::effects_of;
use sqlite_items::{Boxed, Items};
use std::alloc::Global;
use verse_base::refusals::Memory;
use verse_tree::items::{Fun, Param};
use verse_tree::tables::{FunInfo, MapOf, Ref, Ty};
use verse_tree::types::{MapTy, TyExpr};

fn named_type(named: Option<Ref>) -> Ty
    ensures { ty_of result ≡ named_type named }
{
    match named {
        Some(Ref::Class(class)) => Ty::Class(class),
        Some(Ref::Enum(of)) => Ty::Enum(of),
        _ => Ty::Never,
    }
}

/// The type that is spelled; a name that stands for no class or enum spells never.
#[cycle(spelled)]
pub fn spelled(alloc: Global, types: &Dict, ty: &TyExpr) -> Result<Ty, Memory>
    ensures { IfOk result (λ t. ty_of t ≡ spelled (table_of types.now) (written_of ty.now)) }
{
    match ty {
        TyExpr::Int => Ok(Ty::Int),
        TyExpr::Logic => Ok(Ty::Logic),
        TyExpr::Char => Ok(Ty::Char),
        TyExpr::String => Ok(Ty::Array(Boxed::new(alloc, Ty::Char)?)),
        TyExpr::Void => Ok(Ty::Void),
        TyExpr::Name(name) => Ok(named_type(types.find(name.name.as_slice()))),
        TyExpr::Option(part) => Ok(Ty::Option(boxed(alloc, types, part.get())?)),
        TyExpr::Array(part) => Ok(Ty::Array(boxed(alloc, types, part.get())?)),
        TyExpr::Task(part) => Ok(Ty::Task(boxed(alloc, types, part.get())?)),
        TyExpr::Map(parts) => Ok(Ty::Map(map_spelled(alloc, types, parts)?)),
        TyExpr::Tuple(parts) => Ok(Ty::Tuple(all_spelled(alloc, types, parts.as_slice())?)),
        TyExpr::Event(None) => Ok(Ty::Event(Boxed::new(alloc, Ty::Void)?)),
        TyExpr::Event(Some(part)) => Ok(Ty::Event(boxed(alloc, types, part.get())?)),
    }
}

#[cycle(spelled)]
fn boxed(alloc: Global, types: &Dict, ty: &TyExpr) -> Result<Boxed<Ty>, Memory>
    ensures { IfOk result (λ t. ty_of t ≡ spelled (table_of types.now) (written_of ty.now)) }
{
    Ok(Boxed::new(alloc, spelled(alloc, types, ty)?)?)
}

#[cycle(spelled)]
fn map_spelled(alloc: Global, types: &Dict, parts: &MapTy) -> Result<MapOf, Memory>
    ensures key { IfOk result (λ t. (map_of t).0 ≡
        spelled (table_of types.now) (written.map_of parts.now).0) }
    ensures value { IfOk result (λ t. (map_of t).1 ≡
        spelled (table_of types.now) (written.map_of parts.now).1) }
{
    let key = boxed(alloc, types, parts.key.get())?;
    let value = boxed(alloc, types, parts.value.get())?;
    Ok(MapOf { key, value })
}

#[cycle(spelled)]
#[tactic(auto, using(crate::proofs::Spelling::all_spelled_map))]
fn all_spelled(alloc: Global, types: &Dict, parts: &[TyExpr]) -> Result<Items<Ty>, Memory>
    ensures { IfOk result (λ ts. tys (map ty_of ts) ≡
        all_spelled (table_of types.now) (writtens (map written_of parts.now))) }
{
    each_spelled(alloc, types, parts)
}

#[cycle(spelled)]
fn each_spelled(alloc: Global, types: &Dict, parts: &[TyExpr]) -> Result<Items<Ty>, Memory>
    ensures { IfOk result (λ ts. map ty_of ts ≡
        map (spelled (table_of types.now)) (map written_of parts.now)) }
{
    let mut found = Items::new(alloc);
    'parts: for part in parts {
        found.push(spelled(alloc, types, part)?)?;
    }
    Ok(found)
}

fn param_types(alloc: Global, types: &Dict, params: &[Param]) -> Result<Items<Ty>, Memory>
    ensures { IfOk result (λ ts. map ty_of ts ≡
        map (param_type (table_of types.now)) (map param_of params.now)) }
{
    let mut found = Items::new(alloc);
    'params: for param in params {
        found.push(spelled(alloc, types, &param.ty)?)?;
    }
    Ok(found)
}

/// What is known of a function or a method.
pub fn function(alloc: Global, types: &Dict, fun: &Fun) -> Result<FunInfo, Memory>
    ensures { IfOk result (λ f. function_of f ≡
        fun_function (table_of types.now) (fun_of fun.now)) }
{
    let params = param_types(alloc, types, fun.params.as_slice())?;
    let result = spelled(alloc, types, &fun.result)?;
    Ok(FunInfo {
        params,
        result,
        effects: effects_of(fun.effects.as_slice()),
        item: fun.node,
    })
}
