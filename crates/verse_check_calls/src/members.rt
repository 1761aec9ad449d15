//! What stands behind a dot.

ghost use Rattle.std.specs.Prelude.{◌≡◌, ◌||◌, not, cond, Some, None, IfOk, slice_get, map};
ghost use Rattle.verse_tree.specs.View.{tree_of};
ghost use Rattle.verse_check_typing.specs.Refs.{ref_at};
ghost use Rattle.verse_rules_types.specs.Types.{ty_of};
ghost use Rattle.verse_rules_walk.specs.Nodes.{number_of_tree};
ghost use Rattle.verse_rules_walk.specs.Views.{used_of};
ghost use Rattle.verse_check_typing.specs.Facts.{type_of};
ghost use Rattle.verse_check_typing.specs.Members as m;
ghost use Rattle.verse_check_typing.specs.TypeRules as r;
ghost use Rattle.verse_check_typing.specs.Views.{facts_of, judged_of};
ghost use Rattle.verse_check_calls.specs.Views.{member_of as view};
ghost use Rattle.verse_base.specs.declared.rules.TheConstants.{MEMBERLESS};

use crate::names::field_type;
use verse_base::refusals::Memory;
use verse_base::rules::MEMBERLESS;
use verse_check_typing::facts::Facts;
use verse_check_typing::judged::{Judged, tested};
use verse_rules_walk::arounds::Used;
use verse_tree::exprs::Expr;
use verse_tree::tables::{Ref, Ty};

/// What a member is.
#[derive(Drop)]
pub enum Member {
    /// A value of this type.
    Part(Ty),
    /// What can only be called: a method, `Await` or `Signal`.
    Action,
    Missing,
}

fn place_of(what: Option<Ref>) -> Option<u32>
    ensures { result ≡ m.field_place what }
{
    match what {
        Some(Ref::Field(_, place)) => Some(place),
        _ => None,
    }
}

/// The place of the field of a class that has this name.
pub fn field_by(facts: &Facts<'_, '_>, class: u32, name: &[u8]) -> Option<u32>
    ensures { result ≡ m.field_by (facts_of facts.now) class name.now }
{
    match facts.world.members.get(class as usize) {
        None => None,
        Some(members) => place_of(members.field(name)),
    }
}

fn method_by(facts: &Facts<'_, '_>, class: u32, name: &[u8]) -> Option<u32>
    ensures { result ≡ m.method_by (facts_of facts.now) class name.now }
{
    match facts.world.members.get(class as usize) {
        None => None,
        Some(members) => members.method_place(name),
    }
}

/// The field or the method of a class that has this name.
fn class_member(facts: &Facts<'_, '_>, class: u32, name: &[u8]) -> Option<Ref>
    ensures { result ≡ m.class_member (facts_of facts.now) class name.now }
{
    if let Some(place) = field_by(facts, class, name) {
        return Some(Ref::Field(class, place));
    }
    match method_by(facts, class, name) {
        None => None,
        Some(place) => Some(Ref::Method(class, place)),
    }
}

/// What a member refers to, by the type of its object.
pub fn member_ref(facts: &Facts<'_, '_>, object: &Ty, name: &[u8]) -> Result<Option<Ref>, Memory>
    ensures { IfOk result (λ p. p ≡ m.member_ref (facts_of facts.now) (ty_of object.now) name.now) }
{
    match object {
        Ty::Class(class) => Ok(class_member(facts, *class, name)),
        _ => Ok(None),
    }
}

fn by_ref(facts: &Facts<'_, '_>, what: Option<Ref>) -> Result<Member, Memory>
    ensures { IfOk result (λ p. view p ≡ m.by_ref (facts_of facts.now) what) }
{
    match what {
        Some(Ref::Field(class, place)) => Ok(Member::Part(field_type(facts, class, place)?)),
        Some(Ref::Method(_, _)) => Ok(Member::Action),
        _ => Ok(Member::Missing),
    }
}

fn named_length(name: &[u8]) -> Member
    ensures { view result ≡ m.named_length name.now }
{
    if name == b"Length".as_slice() {
        Member::Part(Ty::Int)
    } else {
        Member::Missing
    }
}

fn named_await(name: &[u8]) -> Member
    ensures { view result ≡ m.named_await name.now }
{
    if name == b"Await".as_slice() {
        Member::Action
    } else {
        Member::Missing
    }
}

fn named_event(name: &[u8]) -> Member
    ensures { view result ≡ m.named_event name.now }
{
    if name == b"Await".as_slice() || name == b"Signal".as_slice() {
        Member::Action
    } else {
        Member::Missing
    }
}

fn type_member(facts: &Facts<'_, '_>, object: &Ty, name: &[u8]) -> Result<Member, Memory>
    ensures { IfOk result (λ p. view p ≡
        m.type_member (facts_of facts.now) (ty_of object.now) name.now) }
{
    match object {
        Ty::Never => Ok(Member::Part(Ty::Never)),
        Ty::Class(class) => by_ref(facts, class_member(facts, *class, name)),
        Ty::Array(_) => Ok(named_length(name)),
        Ty::Map(_) => Ok(named_length(name)),
        Ty::Task(_) => Ok(named_await(name)),
        Ty::Event(_) => Ok(named_event(name)),
        _ => Ok(Member::Missing),
    }
}

fn enum_member(facts: &Facts<'_, '_>, of: u32, name: &[u8]) -> Member
    ensures { view result ≡ m.enum_member (facts_of facts.now) of name.now }
{
    if facts.is_value(of, name) {
        Member::Part(Ty::Enum(of))
    } else {
        Member::Missing
    }
}

fn member_of(facts: &Facts<'_, '_>, object: &Expr, name: &[u8]) -> Result<Member, Memory>
    ensures { IfOk result (λ p. view p ≡
        m.member_of (facts_of facts.now)
        (ref_at (facts_of facts.now).refs (number_of_tree (tree_of object.now)))
        (type_of (facts_of facts.now) (tree_of object.now)) name.now) }
{
    match facts.ref_of(object.node) {
        Some(Ref::Enum(of)) => Ok(enum_member(facts, of, name)),
        _ => type_member(facts, facts.type_of(object), name),
    }
}

fn is_called(used: Used<'_>) -> bool
    ensures { result ≡ r.is_called (used_of used.entry) }
{
    match used {
        Used::Callee => true,
        Used::Base => true,
        _ => false,
    }
}

fn judge_member(called: bool, member: Member) -> Judged
    ensures { judged_of result ≡
        record {
          ty = m.part_type (view member);
          code =
              cond (not (m.may_stand called (view member))) (Some MEMBERLESS) None;
        } }
{
    match member {
        Member::Part(ty) => tested(ty, false, MEMBERLESS),
        Member::Action => tested(Ty::Never, !called, MEMBERLESS),
        Member::Missing => tested(Ty::Never, true, MEMBERLESS),
    }
}

/// `E.F`.
pub fn member_form(
    facts: &Facts<'_, '_>,
    used: Used<'_>,
    object: &Expr,
    name: &[u8],
) -> Result<Judged, Memory>
    ensures { IfOk result (λ j. judged_of j ≡
        record {
          ty = m.part_type (m.member_of (facts_of facts.now)
              (ref_at (facts_of facts.now).refs (number_of_tree (tree_of object.now)))
              (type_of (facts_of facts.now) (tree_of object.now)) name.now);
          code =
              cond (not (m.may_stand (r.is_called (used_of used.entry))
              (m.member_of (facts_of facts.now)
              (ref_at (facts_of facts.now).refs (number_of_tree (tree_of object.now)))
              (type_of (facts_of facts.now) (tree_of object.now)) name.now)))
              (Some MEMBERLESS) None;
        }) }
{
    let found = member_of(facts, object, name)?;
    Ok(judge_member(is_called(used), found))
}
