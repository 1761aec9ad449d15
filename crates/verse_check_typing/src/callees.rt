//! What is called or indexed.

ghost use Rattle.std.specs.Prelude.{◌≡◌, Some};
ghost use Rattle.verse_check_typing.specs.Refs.{builtin_by};
ghost use Rattle.verse_tree.specs.View.{tree_of, shape_of};
ghost use Rattle.verse_rules_types.specs.Types.{ty_of};
ghost use Rattle.verse_check_typing.specs.Callees as c;
ghost use Rattle.verse_check_typing.specs.Calls as calls;
ghost use Rattle.verse_check_typing.specs.Views.{facts_of, callee_of};

use crate::builtins::{Builtin, builtin_by};
use crate::facts::Facts;
use crate::lookups::function_of;
use verse_tree::exprs::{Expr, Form};
use verse_tree::tables::{FunInfo, Ref, Ty};

/// What stands before the brackets of a call or an index.
#[derive(Clone, Copy)]
pub enum Callee<'a> {
    /// A function or a method.
    Function(&'a FunInfo),
    Print,
    /// `Floor` or `Ceil`.
    Round,
    /// `Mod`.
    Modulo,
    /// `Await` of a task or an event that gives this.
    Await(&'a Ty),
    /// `Signal` of an event that gives this.
    Signal(&'a Ty),
    /// The name of a class or an enum.
    Item,
    /// What has this type.
    Value(&'a Ty),
}

fn builtin_callee<'a>(number: u8, ty: &'a Ty) -> Callee<'a>
    ensures { callee_of result ≡ c.builtin_callee (builtin_by number) (ty_of ty.now) }
{
    match builtin_by(number) {
        Some(Builtin::Print) => Callee::Print,
        Some(Builtin::Round) => Callee::Round,
        Some(Builtin::Modulo) => Callee::Modulo,
        None => Callee::Value(ty),
    }
}

fn item_callee<'a>(form: &Form, ty: &'a Ty) -> Callee<'a>
    ensures { callee_of result ≡ c.item_callee (shape_of form.now) (ty_of ty.now) }
{
    match form {
        Form::Name(_) => Callee::Item,
        _ => Callee::Value(ty),
    }
}

fn plain_callee<'a>(what: Ref, form: &Form, ty: &'a Ty) -> Callee<'a>
    ensures { callee_of result ≡ c.plain_callee what (shape_of form.now) (ty_of ty.now) }
{
    match what {
        Ref::Builtin(number) => builtin_callee(number, ty),
        Ref::Class(_) => item_callee(form, ty),
        Ref::Enum(_) => item_callee(form, ty),
        Ref::Local(_) => Callee::Value(ty),
        Ref::Key(_) => Callee::Value(ty),
        Ref::Field(_, _) => Callee::Value(ty),
        Ref::Method(_, _) => Callee::Value(ty),
        Ref::Fun(_) => Callee::Value(ty),
    }
}

fn task_action<'a>(name: &[u8], given: &'a Ty, ty: &'a Ty) -> Callee<'a>
    ensures { callee_of result ≡ c.task_action name.now (ty_of given.now) (ty_of ty.now) }
{
    if name == b"Await".as_slice() {
        Callee::Await(given)
    } else {
        Callee::Value(ty)
    }
}

fn event_action<'a>(name: &[u8], given: &'a Ty, ty: &'a Ty) -> Callee<'a>
    ensures { callee_of result ≡ c.event_action name.now (ty_of given.now) (ty_of ty.now) }
{
    if name == b"Await".as_slice() {
        Callee::Await(given)
    } else if name == b"Signal".as_slice() {
        Callee::Signal(given)
    } else {
        Callee::Value(ty)
    }
}

fn action_of<'a>(object: &'a Ty, name: &[u8], ty: &'a Ty) -> Callee<'a>
    ensures { callee_of result ≡ c.action_of (ty_of object.now) name.now (ty_of ty.now) }
{
    match object {
        Ty::Task(given) => task_action(name, given.get(), ty),
        Ty::Event(given) => event_action(name, given.get(), ty),
        _ => Callee::Value(ty),
    }
}

fn form_callee<'a>(facts: &Facts<'a, '_>, form: &Form, ty: &'a Ty) -> Callee<'a>
    ensures { callee_of result ≡ c.shape_callee (facts_of facts.now) (shape_of form.now)
        (ty_of ty.now) }
{
    match form {
        Form::Member(object, name) => action_of(facts.type_of(object.get()), name.as_slice(), ty),
        _ => Callee::Value(ty),
    }
}

fn callee_by<'a>(facts: &Facts<'a, '_>, what: Ref, form: &Form, ty: &'a Ty) -> Callee<'a>
    ensures { callee_of result ≡ c.callee_by (facts_of facts.now) (Some what) (shape_of form.now)
        (ty_of ty.now) }
{
    match function_of(facts.world.names, what) {
        Some(function) => Callee::Function(function),
        None => plain_callee(what, form, ty),
    }
}

/// What a tree means where it is called or indexed.
pub fn make_callee<'a>(facts: &Facts<'a, '_>, callee: &Expr) -> Callee<'a>
    ensures { callee_of result ≡ c.callee_of (facts_of facts.now) (tree_of callee.now) }
{
    let ty = facts.type_at(callee.node);
    match facts.ref_of(callee.node) {
        None => form_callee(facts, &callee.form, ty),
        Some(what) => callee_by(facts, what, &callee.form, ty),
    }
}

impl<'a> Callee<'a> {
    /// Whether it is a function that suspends.
    pub fn is_suspending(self) -> bool
        ensures { result ≡ calls.is_suspending (callee_of self.entry) }
    {
        match self {
            Callee::Function(function) => function.effects.suspends,
            _ => false,
        }
    }
}
