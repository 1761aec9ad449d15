//! The types of several parts.

ghost use Rattle.std.specs.Prelude.{◌≡◌, ◌++◌, map, None, IfOk, option_map, option_copied};
ghost use Rattle.verse_tree.specs.View.{tree_of, trees};
ghost use Rattle.verse_rules_types.specs.Types.{ty_of, tys};
ghost use Rattle.verse_rules_types.specs.Types as t;
ghost use Rattle.verse_check_typing.specs.Calls as calls;
ghost use Rattle.verse_check_typing.specs.Facts.{type_of};
ghost use Rattle.verse_check_typing.specs.Parts as p;
ghost use Rattle.verse_check_typing.specs.Views.{facts_of};

use crate::facts::Facts;
use sqlite_items::{Boxed, Items};
use std::alloc::Global;
use verse_base::refusals::Memory;
use verse_rules_types::joining::{copied, join_of};
use verse_tree::exprs::Expr;
use verse_tree::tables::Ty;

/// Whether a value counts as an int; what gives no value does.
pub fn is_int(ty: &Ty) -> bool
    ensures { result ≡ p.is_int (ty_of ty.now) }
{
    matches!(ty, Ty::Int | Ty::Never)
}

/// Whether both count as ints.
pub fn are_ints(left: &Ty, right: &Ty) -> bool
    ensures { result ≡ p.are_ints (ty_of left.now) (ty_of right.now) }
{
    is_int(left) && is_int(right)
}

/// The type of texts.
pub fn string(alloc: Global) -> Result<Ty, Memory>
    ensures { IfOk result (λ s. ty_of s ≡ t.string) }
{
    Ok(Ty::Array(Boxed::new(alloc, Ty::Char)?))
}

/// How many parts there are.
#[tactic(auto, using(crate::proofs::InTurn::count_trees))]
pub fn count(parts: &[Expr]) -> usize
    ensures { result ≡ p.count (trees (map tree_of parts.now)) }
{
    parts.len()
}

/// The type of the first part.
pub fn first_type<'a>(facts: &Facts<'a, '_>, parts: &[Expr]) -> Option<&'a Ty>
    ensures { option_map ty_of (option_copied result) ≡
        p.first_from (facts_of facts.now) (trees (map tree_of parts.now)) }
{
    match parts.split_first() {
        None => None,
        Some((first, _)) => Some(facts.type_of(first)),
    }
}

/// The type of the second part.
pub fn second_type<'a>(facts: &Facts<'a, '_>, parts: &[Expr]) -> Option<&'a Ty>
    ensures { option_map ty_of (option_copied result) ≡
        p.second_from (facts_of facts.now) (trees (map tree_of parts.now)) }
{
    match parts.split_first() {
        None => None,
        Some((_, rest)) => first_type(facts, rest),
    }
}

/// The join of the types of the parts, which is never where there are none.
pub fn joined(facts: &Facts<'_, '_>, parts: &[Expr]) -> Result<Ty, Memory>
    ensures { IfOk result (λ s. ty_of s ≡
        p.joined (facts_of facts.now) (trees (map tree_of parts.now))) }
{
    let alloc = facts.world.alloc;
    let mut ty = Ty::Never;
    'parts: for part in parts {
        ty = join_of(alloc, facts.classes(), &ty, facts.type_of(part))?;
    }
    Ok(ty)
}

#[tactic(auto, using(crate::proofs::InTurn::types_map))]
fn types_of(facts: &Facts<'_, '_>, parts: &[Expr]) -> Result<Items<Ty>, Memory>
    ensures { IfOk result (λ ts. tys (map ty_of ts) ≡
        p.types_of (facts_of facts.now) (trees (map tree_of parts.now))) }
{
    each_type(facts, parts)
}

fn each_type(facts: &Facts<'_, '_>, parts: &[Expr]) -> Result<Items<Ty>, Memory>
    ensures { IfOk result (λ ts. map ty_of ts ≡
        map (type_of (facts_of facts.now)) (map tree_of parts.now)) }
{
    let alloc = facts.world.alloc;
    let mut found = Items::new(alloc);
    'parts: for part in parts {
        found.push(copied(alloc, facts.type_of(part))?)?;
    }
    Ok(found)
}

/// A tuple, and what `sync` gives.
pub fn tuple(facts: &Facts<'_, '_>, parts: &[Expr]) -> Result<Ty, Memory>
    ensures { IfOk result (λ s. ty_of s ≡
        t.tuple (p.types_of (facts_of facts.now) (trees (map tree_of parts.now)))) }
{
    Ok(Ty::Tuple(types_of(facts, parts)?))
}

fn last_number(parts: &[Expr]) -> Option<u32>
    ensures { result ≡ p.last_from None (trees (map tree_of parts.now)) }
{
    let mut last = None;
    'parts: for part in parts {
        last = Some(part.node);
    }
    last
}

/// The type of the last part, and void where there is none.
pub fn last_type(facts: &Facts<'_, '_>, parts: &[Expr]) -> Result<Ty, Memory>
    ensures { IfOk result (λ s. ty_of s ≡
        p.last_type (facts_of facts.now) (trees (map tree_of parts.now))) }
{
    match last_number(parts) {
        None => Ok(Ty::Void),
        Some(last) => copied(facts.world.alloc, facts.type_at(last)),
    }
}

/// What one index gives of an array or a map.
pub fn content_of(alloc: Global, ty: &Ty) -> Result<Ty, Memory>
    ensures { IfOk result (λ s. ty_of s ≡ calls.content_of (ty_of ty.now)) }
{
    match ty {
        Ty::Array(content) => copied(alloc, content.get()),
        Ty::Map(map) => copied(alloc, map.value.get()),
        _ => Ok(Ty::Never),
    }
}
