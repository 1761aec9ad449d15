//! Parts of nodes.

ghost use Rattle.std.specs.Prelude.{◌≡◌, None, Some, map};
ghost use Rattle.std.specs.Option.{option_map};
ghost use Rattle.verse_tree.specs.View.{tree_of, written_of, shape_of, return_shape, applied_of};
ghost use Rattle.verse_tree.specs.View.{cases_of, if_of, for_of, two_of, typed_value_of};

use crate::trees::{Tree, Trees};
use crate::written::Written;
use sqlite_items::Boxed;
use verse_tree::exprs::{Applied, Cases, Expr, ForParts, Form, IfParts, Two, TypedValue};
use verse_tree::types::TyExpr;

/// Two parts.
pub fn two(left: Tree, right: Tree) -> Two
    ensures { two_of result ≡ (tree_of left, tree_of right) }
{
    Two {
        left: left.into_boxed(),
        right: right.into_boxed(),
    }
}

/// A value with its type.
pub fn with_type(ty: Written, value: Tree) -> TypedValue
    ensures { typed_value_of result ≡ (written_of ty, tree_of value) }
{
    TypedValue {
        ty: ty.into_ty(),
        value: value.into_boxed(),
    }
}

/// The parts of an `if` with an other part.
pub fn alternative(conditions: Trees, taken: Tree, otherwise: Tree) -> IfParts
    ensures { if_of result ≡ record {
      conditions = map tree_of conditions;
      taken =
          tree_of taken;
      otherwise = Some (tree_of otherwise);
    } }
{
    IfParts {
        conditions: conditions.into_items(),
        then: taken.into_boxed(),
        otherwise: Some(otherwise.into_boxed()),
    }
}

/// The parts of an `if` without one.
pub fn single(conditions: Trees, taken: Tree) -> IfParts
    ensures { if_of result ≡ record {
      conditions = map tree_of conditions;
      taken =
          tree_of taken;
      otherwise = None;
    } }
{
    IfParts {
        conditions: conditions.into_items(),
        then: taken.into_boxed(),
        otherwise: None,
    }
}

/// What is called or indexed, with its arguments.
pub fn applied(callee: Tree, args: Trees) -> Applied
    ensures { applied_of result ≡ (tree_of callee, map tree_of args) }
{
    Applied {
        callee: callee.into_boxed(),
        args: args.into_items(),
    }
}

/// The clauses of a `for`, with its body.
pub fn taking(clauses: Trees, body: Tree) -> ForParts
    ensures { for_of result ≡ (map tree_of clauses, tree_of body) }
{
    ForParts {
        clauses: clauses.into_items(),
        body: body.into_boxed(),
    }
}

/// The subject of a `case`, with its arms.
pub fn choosing(subject: Tree, arms: Trees) -> Cases
    ensures { cases_of result ≡ (tree_of subject, map tree_of arms) }
{
    Cases {
        subject: subject.into_boxed(),
        arms: arms.into_items(),
    }
}

/// A `return`, with its value where it has one.
pub fn returning(value: Option<Boxed<Expr>>) -> Form
    ensures { shape_of result ≡ return_shape (option_map tree_of value) }
{
    Form::Return(value)
}

/// A type, where there is one.
pub fn optional(ty: Option<Written>) -> Option<TyExpr>
    ensures { result ≡ ty }
{
    match ty {
        Some(ty) => Some(ty.into_ty()),
        None => None,
    }
}
