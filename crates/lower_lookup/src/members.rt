//! What is read behind a dot, and what `set` writes to.

ghost use Rattle.std.specs.Prelude.{◌≡◌};
ghost use Rattle.verse_tree.specs.View.{tree_of, shape_of, applied_of};
ghost use Rattle.verse_meaning.specs.Programs.{program_of, ref_at};
ghost use Rattle.verse_meaning.specs.Evaluating as e;
ghost use Rattle.lower_lookup.specs.Actions.{form_of};
ghost use Rattle.lower_lookup.specs.Members.{base_view};

use crate::actions::Action;
use crate::names::{is_same_name, ref_at};
use verse_tree::exprs::{Applied, Expr, Form};
use verse_tree::programs::Program;
use verse_tree::tables::Ref;

/// What a member that is no value of an enum does with its object.
pub fn member_form(what: Option<Ref>, name: &[u8]) -> Action
    ensures { form_of result ≡ e.member_form what name.now }
{
    match what {
        Some(Ref::Field(_, slot)) => Action::Read(slot),
        _ => length_form(name),
    }
}

fn length_form(name: &[u8]) -> Action
    ensures { form_of result ≡ e.member_form None name.now }
{
    if is_same_name(name, b"Length") {
        Action::Length
    } else {
        Action::NoMember
    }
}

/// What `set` writes to.
#[derive(Clone, Copy)]
pub enum Base<'a> {
    /// A variable by its name.
    Variable(&'a [u8]),
    /// A field of `Self`, by its place.
    Own(u32),
    /// A field of the object that is the first operand.
    Object(u32),
    /// Nothing that can be written.
    Nowhere,
}

fn base_named<'a>(program: &Program, node: u32, name: &'a [u8]) -> Base<'a>
    ensures { base_view result ≡ e.base_named (program_of program.now)
        (ref_at (program_of program.now) node) name.now }
{
    match ref_at(program, node) {
        Some(Ref::Field(_, slot)) => Base::Own(slot),
        _ => Base::Variable(name),
    }
}

fn base_member<'a>(program: &Program, node: u32) -> Base<'a>
    ensures { base_view result ≡ e.base_member (program_of program.now)
        (ref_at (program_of program.now) node) }
{
    match ref_at(program, node) {
        Some(Ref::Field(_, slot)) => Base::Object(slot),
        _ => Base::Nowhere,
    }
}

#[cycle(base)]
#[tactic(auto, using(crate::proofs::RuleSets::of_bases))]
fn base_of_form<'a>(program: &Program, node: u32, form: &'a Form) -> Base<'a>
    ensures { base_view result ≡ e.base_of_shape (program_of program.now) node
        (shape_of form.now) }
{
    match form {
        Form::Name(name) => base_named(program, node, name.as_slice()),
        Form::Member(_, _) => base_member(program, node),
        Form::Index(parts) => base_of_applied(program, parts),
        _ => Base::Nowhere,
    }
}

#[cycle(base)]
fn base_of_applied<'a>(program: &Program, parts: &'a Applied) -> Base<'a>
    ensures { base_view result ≡ e.base_of (program_of program.now) (applied_of parts.now).0 }
{
    base_of(program, parts.callee.get())
}

/// What the indices of a target of `set` lead from.
#[cycle(base)]
pub fn base_of<'a>(program: &Program, target: &'a Expr) -> Base<'a>
    ensures { base_view result ≡ e.base_of (program_of program.now) (tree_of target.now) }
{
    base_of_form(program, target.node, &target.form)
}
