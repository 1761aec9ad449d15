//! Operators.

ghost use Rattle.std.specs.Prelude.{◌≡◌, ◌&&◌, not, cond, Some, None, IfOk};
ghost use Rattle.verse_tree.specs.View.{tree_of, two_of};
ghost use Rattle.verse_rules_types.specs.Types.{ty_of, classes_of};
ghost use Rattle.verse_rules_types.specs.Types as t;
ghost use Rattle.verse_rules_walk.specs.Views.{used_of};
ghost use Rattle.verse_check_typing.specs.Facts.{classes, type_of, or_never};
ghost use Rattle.verse_check_typing.specs.Parts as p;
ghost use Rattle.verse_check_typing.specs.TypeRules as r;
ghost use Rattle.verse_check_typing.specs.Views.{facts_of, judged_of};
ghost use Rattle.verse_base.specs.declared.rules.TheConstants.{INCOMPARABLE, TYPES_DIFFER};
ghost use Rattle.verse_base.specs.declared.rules.TheConstants.{UNROUNDED};

use std::alloc::Global;
use verse_base::refusals::Memory;
use verse_base::rules::{INCOMPARABLE, TYPES_DIFFER, UNROUNDED};
use verse_check_typing::builtins::{Builtin, builtin_by};
use verse_check_typing::facts::Facts;
use verse_check_typing::judged::{Judged, tested};
use verse_check_typing::parts::{are_ints, is_int};
use verse_rules_types::fitting::does_fit;
use verse_rules_types::joining::{copied, join_of};
use verse_rules_types::kinds::is_comparable;
use verse_rules_walk::arounds::Used;
use verse_tree::exprs::{Assign, Comparison, Expr, Operator, Two};
use verse_tree::tables::{ClassInfo, Ref, Ty};

/// Whether the two can be added: ints, or two arrays.
fn can_add(classes: &[ClassInfo], left: &Ty, right: &Ty) -> bool
    ensures { result ≡ p.is_summed
        (p.sum_of (classes_of classes.now) (ty_of left.now) (ty_of right.now)) }
{
    match (left, right) {
        (Ty::Int, Ty::Int) => true,
        (Ty::Int, Ty::Never) => true,
        (Ty::Never, Ty::Int) => true,
        (Ty::Never, Ty::Never) => true,
        (Ty::Never, Ty::Array(_)) => true,
        (Ty::Array(_), Ty::Never) => true,
        (Ty::Array(_), Ty::Array(_)) => true,
        _ => false,
    }
}

/// The type of a sum; never where the two cannot be added.
fn sum(alloc: Global, classes: &[ClassInfo], left: &Ty, right: &Ty) -> Result<Ty, Memory>
    ensures { IfOk result (λ s. ty_of s ≡
        or_never (p.sum_of (classes_of classes.now) (ty_of left.now) (ty_of right.now))) }
{
    match (left, right) {
        (Ty::Int, Ty::Int) => Ok(Ty::Int),
        (Ty::Int, Ty::Never) => Ok(Ty::Int),
        (Ty::Never, Ty::Int) => Ok(Ty::Int),
        (Ty::Never, Ty::Never) => Ok(Ty::Int),
        (Ty::Array(_), Ty::Array(_)) => join_of(alloc, classes, left, right),
        _ => Ok(Ty::Never),
    }
}

fn chain_type(
    alloc: Global,
    classes: &[ClassInfo],
    operator: Operator,
    left: &Ty,
    right: &Ty,
) -> Result<Ty, Memory>
    ensures { IfOk result (λ s. ty_of s ≡ p.chain_type (classes_of classes.now) operator
        (ty_of left.now) (ty_of right.now)) }
{
    match operator {
        Operator::Or => join_of(alloc, classes, left, right),
        Operator::And => copied(alloc, right),
        Operator::Add => sum(alloc, classes, left, right),
        Operator::Sub => Ok(Ty::Int),
        Operator::Mul => Ok(Ty::Int),
        Operator::Div => Ok(Ty::Int),
    }
}

fn do_chain(classes: &[ClassInfo], operator: Operator, left: &Ty, right: &Ty) -> bool
    ensures { result ≡ p.do_chain (classes_of classes.now) operator (ty_of left.now)
        (ty_of right.now) }
{
    match operator {
        Operator::Or => true,
        Operator::And => true,
        Operator::Add => can_add(classes, left, right),
        Operator::Sub => are_ints(left, right),
        Operator::Mul => are_ints(left, right),
        Operator::Div => are_ints(left, right),
    }
}

fn is_quotient(operator: Operator) -> bool
    ensures { result ≡ p.is_quotient operator }
{
    match operator {
        Operator::Div => true,
        _ => false,
    }
}

fn is_round(what: Option<Ref>) -> bool
    ensures { result ≡ r.is_round what }
{
    match what {
        Some(Ref::Builtin(number)) => is_round_builtin(builtin_by(number)),
        _ => false,
    }
}

fn is_round_builtin(builtin: Option<Builtin>) -> bool
    ensures { result ≡ r.is_round_builtin builtin }
{
    match builtin {
        Some(Builtin::Round) => true,
        _ => false,
    }
}

/// Whether a node is an argument of `Floor` or `Ceil`.
fn is_rounded(facts: &Facts<'_, '_>, used: Used<'_>) -> bool
    ensures { result ≡ r.is_rounded (facts_of facts.now) (used_of used.entry) }
{
    match used {
        Used::Argument(callee, _) => is_round(facts.ref_of(callee)),
        _ => false,
    }
}

fn chain_code(
    facts: &Facts<'_, '_>,
    used: Used<'_>,
    operator: Operator,
    left: &Ty,
    right: &Ty,
) -> Option<u16>
    ensures { result ≡ cond (not
        (p.do_chain (classes (facts_of facts.now)) operator (ty_of left.now) (ty_of right.now)))
        (Some TYPES_DIFFER) (cond (p.is_quotient operator && not
        (r.is_rounded (facts_of facts.now) (used_of used.entry))) (Some UNROUNDED) None) }
{
    if !do_chain(facts.classes(), operator, left, right) {
        Some(TYPES_DIFFER)
    } else if is_quotient(operator) && !is_rounded(facts, used) {
        Some(UNROUNDED)
    } else {
        None
    }
}

/// `E or F`, `E and F`, `E + F`, `E - F`, `E * F`, `E / F`.
pub fn chain(
    facts: &Facts<'_, '_>,
    used: Used<'_>,
    operator: Operator,
    two: &Two,
) -> Result<Judged, Memory>
    ensures { IfOk result (λ j. judged_of j ≡
        record {
          ty = p.chain_type (classes (facts_of facts.now)) operator
              (type_of (facts_of facts.now) (two_of two.now).0)
              (type_of (facts_of facts.now) (two_of two.now).1);
          code =
              cond (not (p.do_chain (classes (facts_of facts.now)) operator
              (type_of (facts_of facts.now) (two_of two.now).0)
              (type_of (facts_of facts.now) (two_of two.now).1))) (Some TYPES_DIFFER)
              (cond (p.is_quotient operator && not
              (r.is_rounded (facts_of facts.now) (used_of used.entry))) (Some UNROUNDED) None);
        }) }
{
    let left = facts.type_of(two.left.get());
    let right = facts.type_of(two.right.get());
    let ty = chain_type(facts.world.alloc, facts.classes(), operator, left, right)?;
    let code = chain_code(facts, used, operator, left, right);
    Ok(Judged { ty, code })
}

fn is_equality(comparison: Comparison) -> bool
    ensures { result ≡ p.is_equality comparison }
{
    match comparison {
        Comparison::Equal => true,
        Comparison::Differs => true,
        Comparison::Below => false,
        Comparison::AtMost => false,
        Comparison::Above => false,
        Comparison::AtLeast => false,
    }
}

fn have_equality(
    alloc: Global,
    classes: &[ClassInfo],
    left: &Ty,
    right: &Ty,
) -> Result<bool, Memory>
    ensures { IfOk result (λ b. b ≡ p.have_equality (classes_of classes.now) (ty_of left.now)
        (ty_of right.now)) }
{
    let joined = join_of(alloc, classes, left, right)?;
    Ok(is_comparable(classes, &joined))
}

fn equality(facts: &Facts<'_, '_>, left: &Ty, right: &Ty) -> Result<Judged, Memory>
    ensures { IfOk result (λ j. judged_of j ≡
        record {
          ty = ty_of left.now;
          code =
              cond (not (p.have_equality (classes (facts_of facts.now)) (ty_of left.now)
              (ty_of right.now))) (Some INCOMPARABLE) None;
        }) }
{
    let alloc = facts.world.alloc;
    let broken = !have_equality(alloc, facts.classes(), left, right)?;
    let ty = copied(alloc, left)?;
    Ok(tested(ty, broken, INCOMPARABLE))
}

/// `E = F`, `E <> F`, `E < F`, `E <= F`, `E > F`, `E >= F`.
pub fn comparison(
    facts: &Facts<'_, '_>,
    comparison: Comparison,
    two: &Two,
) -> Result<Judged, Memory>
    ensures { IfOk result (λ j. judged_of j ≡
        record {
          ty = p.compared_type comparison (type_of (facts_of facts.now) (two_of two.now).0);
          code = cond (not (p.is_equality comparison) && not
              (p.are_ints (type_of (facts_of facts.now) (two_of two.now).0)
              (type_of (facts_of facts.now) (two_of two.now).1))) (Some TYPES_DIFFER)
              (cond (p.is_equality comparison && not
              (p.have_equality (classes (facts_of facts.now))
              (type_of (facts_of facts.now) (two_of two.now).0)
              (type_of (facts_of facts.now) (two_of two.now).1))) (Some INCOMPARABLE) None);
        }) }
{
    let left = facts.type_of(two.left.get());
    let right = facts.type_of(two.right.get());
    if is_equality(comparison) {
        equality(facts, left, right)
    } else {
        Ok(tested(Ty::Int, !are_ints(left, right), TYPES_DIFFER))
    }
}

/// `-E`.
pub fn minus(facts: &Facts<'_, '_>, part: &Expr) -> Judged
    ensures { judged_of result ≡
        record {
          ty = t.int;
          code =
              cond (not (p.is_int (type_of (facts_of facts.now) (tree_of part.now))))
              (Some TYPES_DIFFER) None;
        } }
{
    tested(Ty::Int, !is_int(facts.type_of(part)), TYPES_DIFFER)
}

fn assigned_type(
    alloc: Global,
    classes: &[ClassInfo],
    assign: Assign,
    place: &Ty,
    value: &Ty,
) -> Result<Ty, Memory>
    ensures { IfOk result (λ s. ty_of s ≡ p.assigned_type (classes_of classes.now) assign
        (ty_of place.now) (ty_of value.now)) }
{
    match assign {
        Assign::Set => copied(alloc, value),
        Assign::Add => sum(alloc, classes, place, value),
        Assign::Sub => Ok(Ty::Int),
        Assign::Mul => Ok(Ty::Int),
    }
}

fn can_assign(classes: &[ClassInfo], assign: Assign, place: &Ty, value: &Ty) -> bool
    ensures { result ≡ p.can_assign (classes_of classes.now) assign (ty_of place.now)
        (ty_of value.now) }
{
    match assign {
        Assign::Set => does_fit(classes, value, place),
        Assign::Add => can_add(classes, place, value) && does_fit(classes, value, place),
        Assign::Sub => are_ints(place, value),
        Assign::Mul => are_ints(place, value),
    }
}

/// What `set` gives for a place of one type and a value of another, and whether it can.
pub fn assigned(
    facts: &Facts<'_, '_>,
    assign: Assign,
    place: &Ty,
    value: &Ty,
) -> Result<(Ty, bool), Memory>
    ensures ty { IfOk result (λ s. ty_of s.0 ≡ p.assigned_type (classes (facts_of facts.now)) assign
        (ty_of place.now) (ty_of value.now)) }
    ensures can { IfOk result (λ s. s.1 ≡ p.can_assign (classes (facts_of facts.now)) assign
        (ty_of place.now) (ty_of value.now)) }
{
    let classes = facts.classes();
    let ty = assigned_type(facts.world.alloc, classes, assign, place, value)?;
    Ok((ty, can_assign(classes, assign, place, value)))
}
