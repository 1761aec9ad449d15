//! Calls with round brackets and with square ones, and `spawn`.

ghost use Rattle.std.specs.Prelude.{◌≡◌, ◌&&◌, map, not, cond, true, Some, None, IfOk, slice_get};
ghost use Rattle.std.specs.Prelude.{option_map, option_copied};
ghost use Rattle.verse_tree.specs.View.{tree_of, shape_of, trees, applied_of};
ghost use Rattle.verse_rules_types.specs.Types.{ty_of, tys};
ghost use Rattle.verse_rules_types.specs.Types as t;
ghost use Rattle.verse_check_typing.specs.Callees as callees;
ghost use Rattle.verse_check_typing.specs.Calls as c;
ghost use Rattle.verse_check_typing.specs.Facts.{type_of, or_never};
ghost use Rattle.verse_check_typing.specs.Parts as p;
ghost use Rattle.verse_check_typing.specs.TypeRules as r;
ghost use Rattle.verse_check_typing.specs.Views.{facts_of, judged_of, callee_of};
ghost use Rattle.verse_base.specs.declared.rules.TheConstants.{MEMBERLESS, MISCOUNTED};
ghost use Rattle.verse_base.specs.declared.rules.TheConstants.{TYPES_DIFFER, UNCALLABLE};

use crate::arguments::{are_as_many, are_as_many_indices, do_arguments_fit, do_indices_fit};
use sqlite_items::Boxed;
use std::alloc::Global;
use verse_base::refusals::Memory;
use verse_base::rules::{MEMBERLESS, MISCOUNTED, TYPES_DIFFER, UNCALLABLE};
use verse_check_typing::callees::{Callee, make_callee};
use verse_check_typing::facts::Facts;
use verse_check_typing::judged::{Judged, tested};
use verse_check_typing::parts::{content_of, count, string};
use verse_rules_types::joining::copied;
use verse_tree::exprs::{Applied, Expr, Form};
use verse_tree::tables::Ty;

fn literal_place(number: i64) -> Option<usize>
    ensures { result ≡ c.literal_place number }
{
    usize::try_from(number).ok()
}

/// The place that an int literal names.
fn form_place(form: &Form) -> Option<usize>
    ensures { result ≡ c.shape_place (shape_of form.now) }
{
    match form {
        Form::Int(number) => literal_place(*number),
        _ => None,
    }
}

fn tree_place(part: &Expr) -> Option<usize>
    ensures { result ≡ c.tree_place (tree_of part.now) }
{
    form_place(&part.form)
}

fn nth(types: &[Ty], place: usize) -> Option<&Ty>
    ensures { option_copied result ≡ slice_get types.now place }
{
    types.get(place)
}

fn ty_by(types: &[Ty], place: Option<usize>) -> Option<&Ty>
    ensures { option_map ty_of (option_copied result) ≡ c.ty_by (tys (map ty_of types.now)) place }
{
    match place {
        None => None,
        Some(place) => nth(types, place),
    }
}

/// The element of a tuple that the one argument names.
fn named_item<'a>(types: &'a [Ty], parts: &[Expr]) -> Option<&'a Ty>
    ensures { option_map ty_of (option_copied result) ≡ c.named_item (tys (map ty_of types.now))
        (trees (map tree_of parts.now)) }
{
    let Some((first, rest)) = parts.split_first() else {
        return None;
    };
    match rest.split_first() {
        None => ty_by(types, tree_place(first)),
        Some(_) => None,
    }
}

fn item_of<'a>(ty: &'a Ty, parts: &[Expr]) -> Option<&'a Ty>
    ensures { option_map ty_of (option_copied result) ≡
        c.item_of (ty_of ty.now) (trees (map tree_of parts.now)) }
{
    match ty {
        Ty::Tuple(types) => named_item(types.as_slice(), parts),
        _ => None,
    }
}

fn item_type(alloc: Global, ty: &Ty, parts: &[Expr]) -> Result<Ty, Memory>
    ensures { IfOk result (λ s. ty_of s ≡
        or_never (c.item_of (ty_of ty.now) (trees (map tree_of parts.now)))) }
{
    match item_of(ty, parts) {
        None => Ok(Ty::Never),
        Some(item) => copied(alloc, item),
    }
}

fn element_type(alloc: Global, ty: &Ty, parts: &[Expr]) -> Result<Ty, Memory>
    ensures { IfOk result (λ s. ty_of s ≡
        c.element_of (ty_of ty.now) (p.count (trees (map tree_of parts.now)))) }
{
    if count(parts) == 1 {
        content_of(alloc, ty)
    } else {
        Ok(Ty::Never)
    }
}

fn call_type(alloc: Global, callee: Callee<'_>, parts: &[Expr]) -> Result<Ty, Memory>
    ensures { IfOk result (λ s. ty_of s ≡
        c.call_type (callee_of callee.entry) (trees (map tree_of parts.now))) }
{
    match callee {
        Callee::Function(function) => copied(alloc, &function.result),
        Callee::Print => Ok(Ty::Void),
        Callee::Round => Ok(Ty::Int),
        Callee::Modulo => Ok(Ty::Int),
        Callee::Await(given) => copied(alloc, given),
        Callee::Signal(_) => Ok(Ty::Void),
        Callee::Item => Ok(Ty::Never),
        Callee::Value(ty) => item_type(alloc, ty, parts),
    }
}

fn index_type(alloc: Global, callee: Callee<'_>, parts: &[Expr]) -> Result<Ty, Memory>
    ensures { IfOk result (λ s. ty_of s ≡
        c.index_type (callee_of callee.entry) (trees (map tree_of parts.now))) }
{
    match callee {
        Callee::Value(ty) => element_type(alloc, ty, parts),
        _ => call_type(alloc, callee, parts),
    }
}

fn can_call(callee: Callee<'_>) -> bool
    ensures { result ≡ c.can_call (callee_of callee.entry) }
{
    match callee {
        Callee::Item => false,
        Callee::Value(ty) => matches!(ty, Ty::Tuple(_) | Ty::Never),
        _ => true,
    }
}

fn can_stand_indexed(callee: Callee<'_>) -> bool
    ensures { result ≡ c.can_stand_indexed (callee_of callee.entry) }
{
    match callee {
        Callee::Item => false,
        _ => true,
    }
}

fn has_item(ty: &Ty, parts: &[Expr]) -> bool
    ensures { result ≡ c.has_item (ty_of ty.now) (trees (map tree_of parts.now)) }
{
    match ty {
        Ty::Tuple(types) => count(parts) != 1 || is_there(named_item(types.as_slice(), parts)),
        _ => true,
    }
}

fn is_there(item: Option<&Ty>) -> bool
    ensures { result ≡ c.is_there (option_map ty_of (option_copied item.entry)) }
{
    item.is_some()
}

fn has_called_item(callee: Callee<'_>, parts: &[Expr]) -> bool
    ensures { result ≡ c.has_called_item (callee_of callee.entry) (trees (map tree_of parts.now)) }
{
    match callee {
        Callee::Value(ty) => has_item(ty, parts),
        _ => true,
    }
}

fn call_code(
    facts: &Facts<'_, '_>,
    callee: Callee<'_>,
    parts: &[Expr],
) -> Result<Option<u16>, Memory>
    ensures { IfOk result (λ o. o ≡
        cond (not (c.arguments_fit (facts_of facts.now) (callee_of callee.entry)
        (trees (map tree_of parts.now)))) (Some TYPES_DIFFER)
        (cond (not (c.can_call (callee_of callee.entry))) (Some UNCALLABLE)
        (cond (not (c.are_wanted (c.call_wanted (callee_of callee.entry))
        (p.count (trees (map tree_of parts.now))))) (Some MISCOUNTED)
        (cond (not (c.has_called_item (callee_of callee.entry) (trees (map tree_of parts.now))))
        (Some MEMBERLESS) None)))) }
{
    let text = string(facts.world.alloc)?;
    if !do_arguments_fit(facts, &text, callee, parts) {
        Ok(Some(TYPES_DIFFER))
    } else if !can_call(callee) {
        Ok(Some(UNCALLABLE))
    } else if !are_as_many(callee, parts) {
        Ok(Some(MISCOUNTED))
    } else if !has_called_item(callee, parts) {
        Ok(Some(MEMBERLESS))
    } else {
        Ok(None)
    }
}

fn index_code(
    facts: &Facts<'_, '_>,
    callee: Callee<'_>,
    parts: &[Expr],
) -> Result<Option<u16>, Memory>
    ensures { IfOk result (λ o. o ≡
        cond (not (c.indices_fit (facts_of facts.now) (callee_of callee.entry)
        (trees (map tree_of parts.now)))) (Some TYPES_DIFFER)
        (cond (not (c.can_stand_indexed (callee_of callee.entry))) (Some UNCALLABLE)
        (cond (not (c.are_wanted (c.index_wanted (callee_of callee.entry))
        (p.count (trees (map tree_of parts.now))))) (Some MISCOUNTED) None))) }
{
    let text = string(facts.world.alloc)?;
    if !do_indices_fit(facts, &text, callee, parts) {
        Ok(Some(TYPES_DIFFER))
    } else if !can_stand_indexed(callee) {
        Ok(Some(UNCALLABLE))
    } else if !are_as_many_indices(callee, parts) {
        Ok(Some(MISCOUNTED))
    } else {
        Ok(None)
    }
}

/// `E(F, G)`.
pub fn call(facts: &Facts<'_, '_>, applied: &Applied) -> Result<Judged, Memory>
    ensures { IfOk result (λ j. judged_of j ≡
        record {
          ty = c.call_type (callees.callee_of (facts_of facts.now)
              (applied_of applied.now).0) (trees (applied_of applied.now).1);
          code =
              cond (not (c.arguments_fit (facts_of facts.now)
              (callees.callee_of (facts_of facts.now) (applied_of applied.now).0)
              (trees (applied_of applied.now).1))) (Some TYPES_DIFFER)
              (cond (not (c.can_call (callees.callee_of (facts_of facts.now)
              (applied_of applied.now).0)))
              (Some UNCALLABLE) (cond (not (c.are_wanted
              (c.call_wanted (callees.callee_of (facts_of facts.now) (applied_of applied.now).0))
              (p.count (trees (applied_of applied.now).1)))) (Some MISCOUNTED)
              (cond (not (c.has_called_item
              (callees.callee_of (facts_of facts.now) (applied_of applied.now).0)
              (trees (applied_of applied.now).1))) (Some MEMBERLESS) None)));
        }) }
{
    let parts = applied.args.as_slice();
    let callee = make_callee(facts, applied.callee.get());
    let ty = call_type(facts.world.alloc, callee, parts)?;
    let code = call_code(facts, callee, parts)?;
    Ok(Judged { ty, code })
}

/// `E[F, G]`.
pub fn index(facts: &Facts<'_, '_>, applied: &Applied) -> Result<Judged, Memory>
    ensures { IfOk result (λ j. judged_of j ≡
        record {
          ty = c.index_type (callees.callee_of (facts_of facts.now)
              (applied_of applied.now).0) (trees (applied_of applied.now).1);
          code =
              cond (not (c.indices_fit (facts_of facts.now)
              (callees.callee_of (facts_of facts.now) (applied_of applied.now).0)
              (trees (applied_of applied.now).1))) (Some TYPES_DIFFER)
              (cond (not (c.can_stand_indexed
              (callees.callee_of (facts_of facts.now) (applied_of applied.now).0)))
              (Some UNCALLABLE)
              (cond (not (c.are_wanted (c.index_wanted
              (callees.callee_of (facts_of facts.now) (applied_of applied.now).0))
              (p.count (trees (applied_of applied.now).1)))) (Some MISCOUNTED) None));
        }) }
{
    let parts = applied.args.as_slice();
    let callee = make_callee(facts, applied.callee.get());
    let ty = index_type(facts.world.alloc, callee, parts)?;
    let code = index_code(facts, callee, parts)?;
    Ok(Judged { ty, code })
}

fn is_suspending_call(facts: &Facts<'_, '_>, form: &Form) -> bool
    ensures { result ≡ r.is_suspending_call (facts_of facts.now) (shape_of form.now) }
{
    match form {
        Form::Call(parts) => make_callee(facts, parts.callee.get()).is_suspending(),
        Form::Index(parts) => make_callee(facts, parts.callee.get()).is_suspending(),
        _ => false,
    }
}

fn can_be_spawned(facts: &Facts<'_, '_>, part: &Expr) -> bool
    ensures { result ≡ r.can_be_spawned (facts_of facts.now) (tree_of part.now) }
{
    is_suspending_call(facts, &part.form)
}

/// `spawn{E}`.
pub fn spawn(facts: &Facts<'_, '_>, part: &Expr) -> Result<Judged, Memory>
    ensures { IfOk result (λ j. judged_of j ≡
        record {
          ty = t.task (type_of (facts_of facts.now) (tree_of part.now));
          code =
              cond (not (r.can_be_spawned (facts_of facts.now) (tree_of part.now)))
              (Some UNCALLABLE) None;
        }) }
{
    let alloc = facts.world.alloc;
    let content = copied(alloc, facts.type_of(part))?;
    let ty = Ty::Task(Boxed::new(alloc, content)?);
    Ok(tested(ty, !can_be_spawned(facts, part), UNCALLABLE))
}
