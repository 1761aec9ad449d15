//! Which forms can fail, cannot be undone, suspend, or do more than compute.

ghost use Rattle.std.specs.Prelude.{◌≡◌, slice_get};
ghost use Rattle.verse_tree.specs.View.{tree_of, shape_of};
ghost use Rattle.verse_rules_walk.specs.Views.{used_of, around_of};
ghost use Rattle.verse_effects.specs.Forms as f;

use crate::callees::{Callee, callee_of, ref_at};
use verse_rules_walk::arounds::{Around, Used};
use verse_tree::exprs::{Expr, Form, Operator};
use verse_tree::fields::FieldList;
use verse_tree::tables::{Names, Ref};

/// Whether a node is on the path of the target of a `set`.
fn is_on_path(used: Used<'_>) -> bool
    ensures { result ≡ f.is_on_path (used_of used.entry) }
{
    match used {
        Used::Target => true,
        Used::Base => true,
        _ => false,
    }
}

fn is_spawned(used: Used<'_>) -> bool
    ensures { result ≡ f.is_spawned (used_of used.entry) }
{
    match used {
        Used::Spawned => true,
        _ => false,
    }
}

fn is_quotient(operator: Operator) -> bool
    ensures { result ≡ f.is_quotient operator }
{
    match operator {
        Operator::Div => true,
        _ => false,
    }
}

/// Whether the target of a `set` ends in an index.
fn ends_in_index(names: &Names, target: &Expr) -> bool
    ensures { result ≡ f.ends_in_index names.now (tree_of target.now) }
{
    is_index(names, &target.form)
}

fn is_index(names: &Names, form: &Form) -> bool
    ensures { result ≡ f.is_index names.now (shape_of form.now) }
{
    match form {
        Form::Index(parts) => !callee_of(names, parts.callee.get()).is_function(),
        _ => false,
    }
}

fn index_fails(used: Used<'_>, callee: Callee) -> bool
    ensures { result ≡ f.index_fails (used_of used.entry) callee }
{
    if callee.is_function() {
        callee.call_fails()
    } else {
        !is_on_path(used)
    }
}

/// Whether a form can fail.
pub fn can_fail(names: &Names, around: Around<'_>, form: &Form) -> bool
    ensures { result ≡ f.can_fail names.now (around_of around.entry) (shape_of form.now) }
{
    match form {
        Form::Query(_) => true,
        Form::Compare(_, _) => true,
        Form::Chain(operator, _) => is_quotient(*operator),
        Form::Not(_) => true,
        Form::Set(_, parts) => ends_in_index(names, parts.left.get()),
        Form::Call(parts) => callee_of(names, parts.callee.get()).call_fails(),
        Form::Index(parts) => index_fails(around.used, callee_of(names, parts.callee.get())),
        _ => false,
    }
}

/// Whether a form cannot be undone.
pub fn cannot_undo(names: &Names, form: &Form) -> bool
    ensures { result ≡ f.cannot_undo names.now (shape_of form.now) }
{
    match form {
        Form::Call(parts) => callee_of(names, parts.callee.get()).call_lasts(),
        Form::Index(parts) => callee_of(names, parts.callee.get()).call_lasts(),
        Form::Spawn(_) => true,
        _ => false,
    }
}

/// Whether a form suspends.
pub fn is_async(names: &Names, around: Around<'_>, form: &Form) -> bool
    ensures { result ≡ f.is_async names.now (around_of around.entry) (shape_of form.now) }
{
    match form {
        Form::Call(parts) => {
            callee_of(names, parts.callee.get()).call_suspends(is_spawned(around.used))
        }
        Form::Index(parts) => {
            callee_of(names, parts.callee.get()).call_suspends(is_spawned(around.used))
        }
        Form::Sleep(None) => true,
        Form::Sleep(Some(_)) => true,
        Form::Sync(_) => true,
        Form::Race(_) => true,
        Form::Rush(_) => true,
        Form::Branch(_) => true,
        _ => false,
    }
}

fn is_var_field(names: &Names, class: u32, field: u32) -> bool
    ensures { result ≡ f.var_field_of (slice_get names.now.classes class) field }
{
    match names.classes.get(class as usize) {
        None => false,
        Some(info) => is_var_at(&info.fields, field),
    }
}

fn is_var_at(fields: &FieldList, field: u32) -> bool
    ensures { result ≡ f.is_var_field (slice_get fields.now field) }
{
    match fields.get(field as usize) {
        None => false,
        Some(info) => info.is_var,
    }
}

fn is_var_node(vars: &[bool], node: u32) -> bool
    ensures { result ≡ f.entry_holds (slice_get vars.now node) }
{
    match vars.get(node as usize) {
        None => false,
        Some(defines) => *defines,
    }
}

/// Whether what is referred to is a variable or a `var` field.
fn is_variable(names: &Names, vars: &[bool], what: Option<Ref>) -> bool
    ensures { result ≡ f.is_variable names.now vars.now what }
{
    match what {
        Some(Ref::Local(node)) => is_var_node(vars, node),
        Some(Ref::Field(class, field)) => is_var_field(names, class, field),
        _ => false,
    }
}

fn does_read(names: &Names, vars: &[bool], around: Around<'_>, node: u32) -> bool
    ensures { result ≡ f.reads names.now vars.now (around_of around.entry) node }
{
    is_variable(names, vars, ref_at(names, node)) && !is_on_path(around.used)
}

fn is_shared_class(names: &Names, class: u32) -> bool
    ensures { result ≡ f.is_shared_class (slice_get names.now.classes class) }
{
    match names.classes.get(class as usize) {
        None => false,
        Some(info) => info.is_unique || info.fields.has_var(),
    }
}

/// Whether an instance of what is referred to can be changed, or is unique.
fn is_shared(names: &Names, what: Option<Ref>) -> bool
    ensures { result ≡ f.is_shared names.now what }
{
    match what {
        Some(Ref::Class(class)) => is_shared_class(names, class),
        _ => false,
    }
}

/// Whether a form does more than compute.
pub fn does_touch(names: &Names, vars: &[bool], around: Around<'_>, node: u32, form: &Form) -> bool
    ensures { result ≡ f.touches names.now vars.now (around_of around.entry) node
        (shape_of form.now) }
{
    match form {
        Form::Set(_, _) => true,
        Form::VarDef(_, _) => true,
        Form::Name(_) => does_read(names, vars, around, node),
        Form::Member(_, _) => does_read(names, vars, around, node),
        Form::Call(parts) => callee_of(names, parts.callee.get()).call_touches(),
        Form::Index(parts) => callee_of(names, parts.callee.get()).call_touches(),
        Form::Event(None) => true,
        Form::Event(Some(_)) => true,
        Form::Instance(_, _) => is_shared(names, ref_at(names, node)),
        Form::Spawn(_) => true,
        _ => false,
    }
}

/// Whether `return` or `break` leaves what it may not leave.
pub fn does_leave(around: Around<'_>, form: &Form) -> bool
    ensures { result ≡ f.leaves (around_of around.entry) (shape_of form.now) }
{
    match form {
        Form::Return(None) => !around.may_return,
        Form::Return(Some(_)) => !around.may_return,
        Form::Break => !around.may_break,
        _ => false,
    }
}

/// Whether a call has the wrong kind of brackets.
pub fn has_wrong_brackets(names: &Names, form: &Form) -> bool
    ensures { result ≡ f.wrong_brackets names.now (shape_of form.now) }
{
    match form {
        Form::Call(parts) => callee_of(names, parts.callee.get()).call_fails(),
        Form::Index(parts) => is_plain_function(callee_of(names, parts.callee.get())),
        _ => false,
    }
}

fn is_plain_function(callee: Callee) -> bool
    ensures { result ≡ f.is_plain_function callee }
{
    callee.is_function() && !callee.call_fails()
}

/// Whether a form goes on behind what begins it.
pub fn goes_behind(form: &Form) -> bool
    ensures { result ≡ f.goes_behind (shape_of form.now) }
{
    match form {
        Form::Rush(_) => true,
        Form::Branch(_) => true,
        _ => false,
    }
}

/// Whether a form defines a variable.
pub fn defines_variable(form: &Form) -> bool
    ensures { result ≡ f.defines_variable (shape_of form.now) }
{
    match form {
        Form::VarDef(_, _) => true,
        _ => false,
    }
}
