//! The least rule that a node breaks.

ghost use Rattle.std.specs.Prelude.{◌≡◌};
ghost use Rattle.verse_tree.specs.View.{shape_of};
ghost use Rattle.verse_tree.specs.ItemView.{member_of, item_of};
ghost use Rattle.verse_rules_least.specs.Least.{first_true};
ghost use Rattle.verse_rules_walk.specs.Views.{around_of};
ghost use Rattle.verse_effects.specs.Rules as r;

use crate::forms::{
    can_fail, cannot_undo, does_leave, does_touch, goes_behind, has_wrong_brackets, is_async,
};
use crate::specifiers::{does_item_fit, does_member_fit};
use verse_base::rules::{
    BEGINS_AGAIN, COMPUTES_MORE, LEAVES, NOT_ASYNC, NOT_UNDONE, SPECIFIERS_MISFIT, SUSPENDS_TRIED,
    UNCAUGHT, WRONG_BRACKETS,
};
use verse_rules_walk::arounds::Around;
use verse_tree::exprs::Form;
use verse_tree::items::{Item, Member};
use verse_tree::tables::Names;

fn fails_uncaught(names: &Names, around: Around<'_>, form: &Form) -> bool
    ensures { result ≡ r.fails_uncaught names.now (around_of around.entry) (shape_of form.now) }
{
    can_fail(names, around, form) && !around.is_caught
}

fn lasts_wrongly(names: &Names, around: Around<'_>, form: &Form) -> bool
    ensures { result ≡ r.lasts_wrongly names.now (around_of around.entry) (shape_of form.now) }
{
    cannot_undo(names, form)
        && (around.is_tried || around.owner.effects.transacts || around.is_deferred)
}

fn suspends_wrongly(names: &Names, around: Around<'_>, form: &Form) -> bool
    ensures { result ≡ r.suspends_wrongly names.now (around_of around.entry) (shape_of form.now) }
{
    is_async(names, around, form) && (!around.owner.effects.suspends || around.is_deferred)
}

fn suspends_tried(names: &Names, around: Around<'_>, form: &Form) -> bool
    ensures { result ≡ r.suspends_tried names.now (around_of around.entry) (shape_of form.now) }
{
    is_async(names, around, form) && around.is_tried
}

fn computes_more(names: &Names, vars: &[bool], around: Around<'_>, node: u32, form: &Form) -> bool
    ensures { result ≡ r.computes_more names.now vars.now (around_of around.entry) node
        (shape_of form.now) }
{
    around.owner.effects.computes && does_touch(names, vars, around, node, form)
}

fn begins_again(around: Around<'_>, form: &Form) -> bool
    ensures { result ≡ r.begins_again (around_of around.entry) (shape_of form.now) }
{
    goes_behind(form) && around.repeats
}

/// The least code of a rule that a node of an expression breaks.
pub fn expression_code(
    names: &Names,
    vars: &[bool],
    around: Around<'_>,
    node: u32,
    form: &Form,
) -> Option<u16>
    ensures { result ≡ first_true
        (r.expression_rules names.now vars.now (around_of around.entry) node (shape_of form.now)) }
{
    if fails_uncaught(names, around, form) {
        Some(UNCAUGHT)
    } else if lasts_wrongly(names, around, form) {
        Some(NOT_UNDONE)
    } else if suspends_wrongly(names, around, form) {
        Some(NOT_ASYNC)
    } else if suspends_tried(names, around, form) {
        Some(SUSPENDS_TRIED)
    } else if computes_more(names, vars, around, node, form) {
        Some(COMPUTES_MORE)
    } else if does_leave(around, form) {
        Some(LEAVES)
    } else if has_wrong_brackets(names, form) {
        Some(WRONG_BRACKETS)
    } else if begins_again(around, form) {
        Some(BEGINS_AGAIN)
    } else {
        None
    }
}

/// The code of the rule that an item breaks.
pub fn item_code(item: &Item) -> Option<u16>
    ensures { result ≡ first_true (r.item_rules (item_of item.now)) }
{
    if does_item_fit(item) {
        None
    } else {
        Some(SPECIFIERS_MISFIT)
    }
}

/// The code of the rule that a member breaks.
pub fn member_code(member: &Member) -> Option<u16>
    ensures { result ≡ first_true (r.member_rules (member_of member.now)) }
{
    if does_member_fit(member) {
        None
    } else {
        Some(SPECIFIERS_MISFIT)
    }
}
