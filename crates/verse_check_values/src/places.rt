//! What can be set, and `set`.

ghost use Rattle.std.specs.Prelude.{◌≡◌, ◌&&◌, not, cond, Some, None, IfOk};
ghost use Rattle.verse_tree.specs.View.{tree_of, shape_of, two_of};
ghost use Rattle.verse_rules_types.specs.Types.{ty_of};
ghost use Rattle.verse_check_typing.specs.Facts.{classes, type_of};
ghost use Rattle.verse_check_typing.specs.Members as m;
ghost use Rattle.verse_check_typing.specs.Parts as p;
ghost use Rattle.verse_check_typing.specs.TypeRules as r;
ghost use Rattle.verse_check_typing.specs.Views.{facts_of, judged_of};
ghost use Rattle.verse_base.specs.declared.rules.TheConstants.{TYPES_DIFFER, UNSETTABLE};

use crate::operators::assigned;
use verse_base::refusals::Memory;
use verse_base::rules::{TYPES_DIFFER, UNSETTABLE};
use verse_check_typing::facts::{Facts, has_value};
use verse_check_typing::judged::Judged;
use verse_tree::exprs::{Assign, Expr, Form, Two};
use verse_tree::tables::Ref;

fn is_var_field(facts: &Facts<'_, '_>, class: u32, place: u32) -> bool
    ensures { result ≡ m.is_var_field (facts_of facts.now) class place }
{
    match facts.field_at(class, place) {
        None => false,
        Some(info) => info.is_var,
    }
}

fn is_variable(facts: &Facts<'_, '_>, what: Option<Ref>) -> bool
    ensures { result ≡ r.is_variable (facts_of facts.now) what }
{
    match what {
        Some(Ref::Local(node)) => facts.is_var(node),
        Some(Ref::Field(class, place)) => is_var_field(facts, class, place),
        _ => false,
    }
}

/// Whether a tree is a variable, a `var` field, or an index path from one.
#[cycle(set)]
fn can_be_set(facts: &Facts<'_, '_>, target: &Expr) -> bool
    ensures { result ≡ r.can_be_set (facts_of facts.now) (tree_of target.now) }
{
    can_form_be_set(facts, target.node, &target.form)
}

#[cycle(set)]
fn can_form_be_set(facts: &Facts<'_, '_>, node: u32, form: &Form) -> bool
    ensures { result ≡ r.can_shape_be_set (facts_of facts.now) node (shape_of form.now) }
{
    match form {
        Form::Name(_) => is_variable(facts, facts.ref_of(node)),
        Form::Member(_, _) => is_variable(facts, facts.ref_of(node)),
        Form::Index(parts) => can_be_set(facts, parts.callee.get()),
        _ => false,
    }
}

fn is_item_name(facts: &Facts<'_, '_>, node: u32, form: &Form) -> bool
    ensures { result ≡ r.is_item_name (facts_of facts.now) node (shape_of form.now) }
{
    match form {
        Form::Name(_) => !has_value(facts.ref_of(node)),
        _ => false,
    }
}

/// Whether a tree is the name of what has no type.
fn is_item(facts: &Facts<'_, '_>, target: &Expr) -> bool
    ensures { result ≡ r.is_item (facts_of facts.now) (tree_of target.now) }
{
    is_item_name(facts, target.node, &target.form)
}

/// `set P = E` and its kin.
pub fn assignment(facts: &Facts<'_, '_>, assign: Assign, two: &Two) -> Result<Judged, Memory>
    ensures { IfOk result (λ j. judged_of j ≡
        record {
          ty = p.assigned_type (classes (facts_of facts.now)) assign
              (type_of (facts_of facts.now) (two_of two.now).0)
              (type_of (facts_of facts.now) (two_of two.now).1);
          code =
              cond (not (r.is_item (facts_of facts.now) (two_of two.now).0) && not
              (p.can_assign (classes (facts_of facts.now)) assign
              (type_of (facts_of facts.now) (two_of two.now).0)
              (type_of (facts_of facts.now) (two_of two.now).1))) (Some TYPES_DIFFER)
              (cond (not (r.can_be_set (facts_of facts.now) (two_of two.now).0))
              (Some UNSETTABLE) None);
        }) }
{
    let target = two.left.get();
    let place = facts.type_of(target);
    let value = facts.type_of(two.right.get());
    let (ty, can) = assigned(facts, assign, place, value)?;
    let code = assignment_code(facts, target, can);
    Ok(Judged { ty, code })
}

fn assignment_code(facts: &Facts<'_, '_>, target: &Expr, can: bool) -> Option<u16>
    ensures { result ≡ cond (not (r.is_item (facts_of facts.now) (tree_of target.now)) && not can)
        (Some TYPES_DIFFER) (cond (not (r.can_be_set (facts_of facts.now) (tree_of target.now)))
        (Some UNSETTABLE) None) }
{
    if !is_item(facts, target) && !can {
        Some(TYPES_DIFFER)
    } else if !can_be_set(facts, target) {
        Some(UNSETTABLE)
    } else {
        None
    }
}
