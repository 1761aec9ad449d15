//! What is called, by the tables of names.

ghost use Rattle.std.specs.Prelude.{◌≡◌, slice_get};
ghost use Rattle.verse_tree.specs.View.{tree_of, shape_of};
ghost use Rattle.verse_effects.specs.Callees as k;

use verse_tree::exprs::{Expr, Form};
use verse_tree::tables::{ClassInfo, Effects, FunInfo, Names, Ref};

/// What stands before the brackets of a call or an index.
#[derive(Clone, Copy, Debug, PartialEq, Eq)]
pub enum Callee {
    /// A function or a method, with its effects.
    Function(Effects),
    Print,
    /// `Floor` or `Ceil`.
    Round,
    Modulo,
    Await,
    Signal,
    /// What is no function: brackets behind it take a part of it.
    Other,
}

/// What a node refers to.
pub fn ref_at(names: &Names, node: u32) -> Option<Ref>
    ensures { result ≡ k.ref_at names.now node }
{
    match names.refs.get(node as usize) {
        None => None,
        Some(known) => *known,
    }
}

fn function_at(names: &Names, function: u32) -> Callee
    ensures { result ≡ k.function_at names.now function }
{
    match names.funs.get(function as usize) {
        None => Callee::Other,
        Some(info) => Callee::Function(info.effects),
    }
}

fn method_at(names: &Names, class: u32, method: u32) -> Callee
    ensures { result ≡ k.callee_of_class names.now method (slice_get names.now.classes class) }
{
    match names.classes.get(class as usize) {
        None => Callee::Other,
        Some(info) => method_of(names, info, method),
    }
}

fn method_of(names: &Names, info: &ClassInfo, method: u32) -> Callee
    ensures { result ≡ k.callee_of_method names.now (slice_get info.now.methods method) }
{
    match info.methods.get(method as usize) {
        None => Callee::Other,
        Some(function) => function_at(names, *function),
    }
}

fn builtin(number: u8) -> Callee
    ensures { result ≡ k.builtin number }
{
    match number {
        0 => Callee::Print,
        1 => Callee::Round,
        2 => Callee::Round,
        3 => Callee::Modulo,
        _ => Callee::Other,
    }
}

fn callee_of_ref(names: &Names, what: Ref) -> Callee
    ensures { result ≡ k.callee_of_ref names.now what }
{
    match what {
        Ref::Fun(function) => function_at(names, function),
        Ref::Method(class, method) => method_at(names, class, method),
        Ref::Builtin(number) => builtin(number),
        Ref::Local(_) => Callee::Other,
        Ref::Key(_) => Callee::Other,
        Ref::Field(_, _) => Callee::Other,
        Ref::Class(_) => Callee::Other,
        Ref::Enum(_) => Callee::Other,
    }
}

fn names_enum(names: &Names, node: u32) -> bool
    ensures { result ≡ k.is_enum (k.ref_at names.now node) }
{
    match ref_at(names, node) {
        Some(Ref::Enum(_)) => true,
        _ => false,
    }
}

fn own_member(behind_enum: bool, name: &[u8]) -> Callee
    ensures { result ≡ k.own_member behind_enum name.now }
{
    if behind_enum {
        Callee::Other
    } else if name == b"Await".as_slice() {
        Callee::Await
    } else if name == b"Signal".as_slice() {
        Callee::Signal
    } else {
        Callee::Other
    }
}

fn callee_by_form(names: &Names, form: &Form) -> Callee
    ensures { result ≡ k.callee_by_shape names.now (shape_of form.now) }
{
    match form {
        Form::Member(object, name) => {
            own_member(names_enum(names, object.get().node), name.as_slice())
        }
        _ => Callee::Other,
    }
}

/// What a tree means where it is called or indexed.
pub fn callee_of(names: &Names, callee: &Expr) -> Callee
    ensures { result ≡ k.callee_of names.now (tree_of callee.now) }
{
    match ref_at(names, callee.node) {
        Some(what) => callee_of_ref(names, what),
        None => callee_by_form(names, &callee.form),
    }
}

impl Callee {
    pub fn is_function(self) -> bool
        ensures { result ≡ k.is_function self }
    {
        match self {
            Callee::Other => false,
            _ => true,
        }
    }

    /// Whether a call of it can fail.
    pub fn call_fails(self) -> bool
        ensures { result ≡ k.call_fails self }
    {
        match self {
            Callee::Function(effects) => effects.decides,
            Callee::Modulo => true,
            _ => false,
        }
    }

    /// Whether a call of it cannot be undone.
    pub fn call_lasts(self) -> bool
        ensures { result ≡ k.call_lasts self }
    {
        match self {
            Callee::Function(effects) => {
                !(effects.computes || effects.transacts) && !effects.suspends
            }
            Callee::Signal => true,
            _ => false,
        }
    }

    /// Whether a call of it suspends, but that of a function whose call is spawned.
    pub fn call_suspends(self, spawned: bool) -> bool
        ensures { result ≡ k.call_suspends spawned self }
    {
        match self {
            Callee::Function(effects) => effects.suspends && !spawned,
            Callee::Await => true,
            _ => false,
        }
    }

    /// Whether a call of it does more than compute.
    pub fn call_touches(self) -> bool
        ensures { result ≡ k.call_touches self }
    {
        match self {
            Callee::Function(effects) => !effects.computes,
            Callee::Print => true,
            Callee::Signal => true,
            _ => false,
        }
    }
}
