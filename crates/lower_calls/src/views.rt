//! The parts of callees and operands.

ghost use Rattle.std.specs.Prelude.{◌≡◌};
ghost use Rattle.std.specs.Option.{option_map};
ghost use Rattle.verse_tree.specs.View.{tree_of, shape_of};
ghost use Rattle.lower_calls.specs.Views as v;

use verse_tree::exprs::{Applied, Expr, Form, Two};

#[tactic(auto, using(crate::proofs::RuleSets::of_objects))]
fn object_in<'a>(form: &'a Form) -> Option<&'a Expr>
    ensures { option_map v.tree_now result ≡ v.object_in (shape_of form.now) }
{
    match form {
        Form::Member(object, _) => Some(object.get()),
        _ => None,
    }
}

/// The object of a member.
pub fn object_of<'a>(expr: &'a Expr) -> Option<&'a Expr>
    ensures { option_map v.tree_now result ≡ v.object_of (tree_of expr.now) }
{
    object_in(&expr.form)
}

#[tactic(auto, using(crate::proofs::RuleSets::of_chains))]
fn chained_in<'a>(form: &'a Form) -> Option<&'a Two>
    ensures { option_map v.two_now result ≡ v.chained_in (shape_of form.now) }
{
    match form {
        Form::Chain(_, parts) => Some(parts),
        _ => None,
    }
}

/// Both parts of a chain.
pub fn chained_of<'a>(expr: &'a Expr) -> Option<&'a Two>
    ensures { option_map v.two_now result ≡ v.chained_of (tree_of expr.now) }
{
    chained_in(&expr.form)
}

#[tactic(auto, using(crate::proofs::RuleSets::of_calls))]
fn called_in<'a>(form: &'a Form) -> Option<&'a Applied>
    ensures { option_map v.applied_now result ≡ v.called_in (shape_of form.now) }
{
    match form {
        Form::Call(parts) => Some(parts),
        _ => None,
    }
}

/// The callee and the arguments of a call.
pub fn called_of<'a>(expr: &'a Expr) -> Option<&'a Applied>
    ensures { option_map v.applied_now result ≡ v.called_of (tree_of expr.now) }
{
    called_in(&expr.form)
}
