//! What stands before the brackets of a call or an index.

ghost use Rattle.std.specs.Prelude.{◌≡◌};
ghost use Rattle.verse_tree.specs.View.{tree_of, shape_of};
ghost use Rattle.verse_meaning.specs.Programs.{program_of};
ghost use Rattle.verse_meaning.specs.Evaluating as e;
ghost use Rattle.lower_lookup.specs.Actions.{form_of};
ghost use Rattle.lower_lookup.specs.Callees.{called};

use crate::actions::{Action, spawned};
use crate::names::{is_same_name, ref_at};
use crate::types::is_event;
use verse_base::places::Place;
use verse_tree::exprs::{Expr, Form};
use verse_tree::programs::Program;
use verse_tree::tables::Ref;

/// What a callee stands for.
#[derive(Clone, Copy, Debug)]
pub enum Callee {
    /// An action without an operand for it.
    Alone(Action),
    /// With its object as the first operand.
    OfObject(Action),
    /// With its value as the first operand.
    OfValue(Action),
    /// `Floor` and `Ceil`, of the operands of a quotient.
    OfQuotient(Action),
    None,
}

#[tactic(auto, using(crate::proofs::NoCallees::modulo_is))]
fn builtin(number: u8, place: Place) -> Callee
    ensures { called result ≡ e.builtin number place }
{
    match number {
        0 => Callee::Alone(Action::Print(place)),
        1 => Callee::OfQuotient(Action::Floor(place)),
        2 => Callee::OfQuotient(Action::Ceil(place)),
        _ => Callee::Alone(Action::Modulo),
    }
}

fn named_callee(what: Option<Ref>, whole: Action, place: Place) -> Callee
    ensures { called result ≡ e.named_callee what (form_of whole) place }
{
    match what {
        Some(Ref::Fun(function)) => Callee::Alone(Action::Call(function)),
        Some(Ref::Method(_, method)) => Callee::Alone(Action::CallOwn(method)),
        Some(Ref::Builtin(number)) => builtin(number, place),
        _ => Callee::OfValue(whole),
    }
}

fn unknown_member(of_event: bool, name: &[u8], whole: Action) -> Callee
    ensures { called result ≡ e.member_callee None of_event name.now (form_of whole) }
{
    if is_same_name(name, b"Await") {
        Callee::OfObject(Action::Await(of_event))
    } else if is_same_name(name, b"Signal") {
        Callee::OfObject(Action::Signal)
    } else {
        Callee::OfValue(whole)
    }
}

fn member_callee(what: Option<Ref>, of_event: bool, name: &[u8], whole: Action) -> Callee
    ensures { called result ≡ e.member_callee what of_event name.now (form_of whole) }
{
    match what {
        Some(Ref::Method(_, method)) => Callee::OfObject(Action::CallMethod(method)),
        Some(_) => Callee::OfValue(whole),
        None => unknown_member(of_event, name, whole),
    }
}

#[tactic(auto, using(crate::proofs::RuleSets::of_callees))]
fn callee_of_form(program: &Program, node: u32, form: &Form, whole: Action, place: Place) -> Callee
    ensures { called result ≡ e.callee_of_shape (program_of program.now) node (shape_of form.now)
        (form_of whole) place }
{
    match form {
        Form::Name(_) => named_callee(ref_at(program, node), whole, place),
        Form::Member(object, name) => {
            let of_event = is_event(program, object.get().node);
            member_callee(ref_at(program, node), of_event, name.as_slice(), whole)
        }
        _ => Callee::OfValue(whole),
    }
}

/// What a callee stands for; `whole` is the action where it is a value, and the place is that of
/// the call.
pub fn callee_of(program: &Program, callee: &Expr, whole: Action, place: Place) -> Callee
    ensures { called result ≡ e.callee_of (program_of program.now) (tree_of callee.now)
        (form_of whole) place }
{
    callee_of_form(program, callee.node, &callee.form, whole, place)
}

/// What a callee stands for where its call is spawned.
pub fn spawned_callee(callee: Callee) -> Callee
    ensures { called result ≡ e.spawned_callee (called callee) }
{
    match callee {
        Callee::Alone(action) => Callee::Alone(spawned(action)),
        Callee::OfObject(action) => Callee::OfObject(spawned(action)),
        _ => Callee::None,
    }
}
