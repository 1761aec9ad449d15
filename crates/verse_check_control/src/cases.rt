//! `case`: its patterns, and whether they cover the subject.

ghost use Rattle.std.specs.Prelude.{◌≡◌, [], map, not, cond, Some, None, IfOk, OnOk};
ghost use Rattle.verse_tree.specs.View.{tree_of, shape_of, trees, cases_of};
ghost use Rattle.verse_rules_types.specs.Kinds.{is_char};
ghost use Rattle.verse_rules_types.specs.Types.{ty_of};
ghost use Rattle.verse_rules_types.specs.Types as t;
ghost use Rattle.verse_check_typing.specs.Cases as c;
ghost use Rattle.verse_check_typing.specs.Facts.{type_of, named_ref};
ghost use Rattle.verse_check_typing.specs.Members.{values_of};
ghost use Rattle.verse_check_typing.specs.Parts as p;
ghost use Rattle.verse_check_typing.specs.Rows.{value_type};
ghost use Rattle.verse_check_typing.specs.Sets.{has_names, with_name};
ghost use Rattle.verse_check_typing.specs.TypeRules.{is_enum_value};
ghost use Rattle.verse_check_typing.specs.Views.{facts_of, judged_of, bytes_of, names_of};
ghost use Rattle.verse_base.specs.declared.rules.TheConstants.{MEMBERLESS, TYPES_DIFFER, UNCOVERED};

use verse_base::refusals::Memory;
use verse_base::rules::{MEMBERLESS, TYPES_DIFFER, UNCOVERED};
use verse_check_typing::facts::Facts;
use verse_check_typing::judged::{Judged, code_if, tested};
use verse_check_typing::parts::joined;
use verse_check_typing::sets::NameSet;
use verse_rules_types::fitting::does_fit;
use verse_tree::exprs::{Cases, Expr, Form};
use verse_tree::tables::{Ref, Ty};

fn is_never(ty: &Ty) -> bool
    ensures { result ≡ p.is_never (ty_of ty.now) }
{
    matches!(ty, Ty::Never)
}

fn is_char(ty: &Ty) -> bool
    ensures { result ≡ is_char (ty_of ty.now) }
{
    matches!(ty, Ty::Char)
}

/// Whether values of the type have patterns.
fn is_subject(ty: &Ty) -> bool
    ensures { result ≡ c.is_subject (ty_of ty.now) }
{
    match ty {
        Ty::Never | Ty::Int | Ty::Logic | Ty::Char | Ty::Enum(_) => true,
        Ty::Array(content) => is_char(content.get()),
        _ => false,
    }
}

fn does_form_fit(facts: &Facts<'_, '_>, subject: &Ty, form: &Form) -> bool
    ensures { result ≡ c.shape_fits (facts_of facts.now) (ty_of subject.now) (shape_of form.now) }
{
    match form {
        Form::Arm(arm) => does_fit(facts.classes(), facts.type_of(arm.left.get()), subject),
        _ => true,
    }
}

/// Whether the pattern of each arm fits the subject.
fn do_arms_fit(facts: &Facts<'_, '_>, subject: &Ty, arms: &[Expr]) -> bool
    ensures { result ≡ c.arms_fit (facts_of facts.now) (ty_of subject.now)
        (trees (map tree_of arms.now)) }
{
    'arms: for arm in arms {
        if !does_form_fit(facts, subject, &arm.form) {
            return false;
        }
    }
    true
}

fn can_case(facts: &Facts<'_, '_>, subject: &Ty, arms: &[Expr]) -> bool
    ensures { result ≡ c.can_case (facts_of facts.now) (ty_of subject.now)
        (trees (map tree_of arms.now)) }
{
    is_subject(subject) && (is_never(subject) || do_arms_fit(facts, subject, arms))
}

fn case_type(facts: &Facts<'_, '_>, subject: &Ty, arms: &[Expr]) -> Result<Ty, Memory>
    ensures { IfOk result (λ t. ty_of t ≡ c.case_type (facts_of facts.now) (ty_of subject.now)
        (trees (map tree_of arms.now))) }
{
    if is_never(subject) {
        return Ok(Ty::Never);
    }
    joined(facts, arms)
}

fn is_any_pattern(form: &Form) -> bool
    ensures { result ≡ c.is_any_pattern (shape_of form.now) }
{
    match form {
        Form::AnyPattern => true,
        _ => false,
    }
}

fn is_any_arm(form: &Form) -> bool
    ensures { result ≡ c.is_any_arm (shape_of form.now) }
{
    match form {
        Form::Arm(arm) => is_any_pattern(&arm.left.get().form),
        _ => false,
    }
}

/// Whether an arm takes any value.
fn does_any_take_any(arms: &[Expr]) -> bool
    ensures { result ≡ c.any_takes_any (trees (map tree_of arms.now)) }
{
    'arms: for arm in arms {
        if is_any_arm(&arm.form) {
            return true;
        }
    }
    false
}

fn is_of_enum(of: u32, ty: &Ty) -> bool
    ensures { result ≡ c.is_of_enum of (ty_of ty.now) }
{
    match ty {
        Ty::Enum(other) => *other == of,
        _ => false,
    }
}

fn add_value<'a>(names: &mut NameSet<'a>, is_wanted: bool, value: &'a [u8]) -> Result<(), Memory>
    ensures { OnOk result (names_of names.new ≡
        cond is_wanted (with_name value.now (names_of names.old)) (names_of names.old)) }
{
    if is_wanted { names.add(value) } else { Ok(()) }
}

fn add_pattern<'a>(
    facts: &Facts<'_, '_>,
    of: u32,
    node: u32,
    form: &'a Form,
    names: &mut NameSet<'a>,
) -> Result<(), Memory>
    ensures { OnOk result (names_of names.new ≡ c.with_valued (facts_of facts.now) of node
        (shape_of form.now) (names_of names.old)) }
{
    match form {
        Form::EnumPattern(_, value) => {
            let is_wanted = is_of_enum(of, facts.type_at(node));
            add_value(names, is_wanted, value.as_slice())
        }
        _ => Ok(()),
    }
}

fn add_arm<'a>(
    facts: &Facts<'_, '_>,
    of: u32,
    form: &'a Form,
    names: &mut NameSet<'a>,
) -> Result<(), Memory>
    ensures { OnOk result (names_of names.new ≡
        c.with_shape (facts_of facts.now) of (shape_of form.now) (names_of names.old)) }
{
    match form {
        Form::Arm(arm) => {
            let pattern = arm.left.get();
            add_pattern(facts, of, pattern.node, &pattern.form, names)
        }
        _ => Ok(()),
    }
}

/// The values of an enum that the patterns name.
fn named<'a>(facts: &Facts<'_, '_>, of: u32, arms: &'a [Expr]) -> Result<NameSet<'a>, Memory>
    ensures { IfOk result (λ s. names_of s ≡ c.named_from (facts_of facts.now) of []
        (trees (map tree_of arms.now))) }
{
    let mut found = NameSet::new(facts.world.alloc);
    'arms: for arm in arms {
        add_arm(facts, of, &arm.form, &mut found)?;
    }
    Ok(found)
}

fn values_of<'a>(facts: &Facts<'a, '_>, of: u32) -> &'a [&'a [u8]]
    ensures { map bytes_of result.now ≡ values_of (facts_of facts.now) of }
{
    match facts.world.values.get(of as usize) {
        None => &[],
        Some(values) => values.names(),
    }
}

fn has_all(named: &NameSet<'_>, values: &[&[u8]]) -> bool
    ensures { result ≡ has_names (map bytes_of values.now) (names_of named.now) }
{
    'values: for value in values {
        if !named.has(value) {
            return false;
        }
    }
    true
}

/// Whether each value of the subject's enum has an arm.
fn are_all_named(facts: &Facts<'_, '_>, subject: &Ty, arms: &[Expr]) -> Result<bool, Memory>
    ensures { IfOk result (λ b. b ≡ c.all_named (facts_of facts.now) (ty_of subject.now)
        (trees (map tree_of arms.now))) }
{
    match subject {
        Ty::Enum(of) => {
            let named = named(facts, *of, arms)?;
            Ok(has_all(&named, values_of(facts, *of)))
        }
        _ => Ok(false),
    }
}

fn are_covered(facts: &Facts<'_, '_>, subject: &Ty, arms: &[Expr]) -> Result<bool, Memory>
    ensures { IfOk result (λ b. b ≡ c.are_covered (facts_of facts.now) (ty_of subject.now)
        (trees (map tree_of arms.now))) }
{
    if does_any_take_any(arms) {
        return Ok(true);
    }
    are_all_named(facts, subject, arms)
}

fn case_code(facts: &Facts<'_, '_>, subject: &Ty, arms: &[Expr]) -> Result<Option<u16>, Memory>
    ensures { IfOk result (λ o. o ≡
        cond (not (c.can_case (facts_of facts.now) (ty_of subject.now)
        (trees (map tree_of arms.now)))) (Some TYPES_DIFFER)
        (cond (not (c.are_covered (facts_of facts.now) (ty_of subject.now)
        (trees (map tree_of arms.now)))) (Some UNCOVERED) None)) }
{
    if !can_case(facts, subject, arms) {
        return Ok(Some(TYPES_DIFFER));
    }
    let is_covered = are_covered(facts, subject, arms)?;
    Ok(code_if(!is_covered, UNCOVERED))
}

/// A `case`: the join of its arms, and never where its subject gives no value.
///
/// E050: a subject whose values have no patterns, or a pattern that does not fit the subject.
/// E058: no arm takes any value, and the subject is of no enum or a value of its enum has no arm.
pub fn case_form(facts: &Facts<'_, '_>, parts: &Cases) -> Result<Judged, Memory>
    ensures { IfOk result (λ j. judged_of j ≡
        record {
          ty = c.case_type (facts_of facts.now)
              (type_of (facts_of facts.now) (cases_of parts.now).0) (trees (cases_of parts.now).1);
          code =
              cond (not (c.can_case (facts_of facts.now)
              (type_of (facts_of facts.now) (cases_of parts.now).0) (trees (cases_of parts.now).1)))
              (Some TYPES_DIFFER) (cond (not (c.are_covered (facts_of facts.now)
              (type_of (facts_of facts.now) (cases_of parts.now).0) (trees (cases_of parts.now).1)))
              (Some UNCOVERED) None);
        }) }
{
    let subject = facts.type_of(parts.subject.get());
    let arms = parts.arms.as_slice();
    let code = case_code(facts, subject, arms)?;
    let ty = case_type(facts, subject, arms)?;
    Ok(Judged { ty, code })
}

/// The pattern `E.v` at this node.
///
/// E056: E is no enum, or has no value v.
pub fn enum_pattern(facts: &Facts<'_, '_>, node: u32, value: &[u8]) -> Judged
    ensures { judged_of result ≡
        record {
          ty = value_type (facts_of facts.now) (named_ref (facts_of facts.now) node)
              value.now;
          code = cond (not
              (is_enum_value (facts_of facts.now) (named_ref (facts_of facts.now) node) value.now))
              (Some MEMBERLESS) None;
        } }
{
    let named = facts.named_ref(node);
    tested(
        value_type(facts, named, value),
        !is_enum_value(facts, named, value),
        MEMBERLESS,
    )
}

fn value_type(facts: &Facts<'_, '_>, named: Option<Ref>, value: &[u8]) -> Ty
    ensures { ty_of result ≡ value_type (facts_of facts.now) named value.now }
{
    match named {
        Some(Ref::Enum(of)) => type_if(facts.is_value(of, value), of),
        _ => Ty::Never,
    }
}

fn type_if(is_value: bool, of: u32) -> Ty
    ensures { ty_of result ≡ cond is_value (t.enum of) t.never }
{
    if is_value { Ty::Enum(of) } else { Ty::Never }
}

fn is_enum_value(facts: &Facts<'_, '_>, named: Option<Ref>, value: &[u8]) -> bool
    ensures { result ≡ is_enum_value (facts_of facts.now) named value.now }
{
    match named {
        Some(Ref::Enum(of)) => facts.is_value(of, value),
        _ => false,
    }
}
