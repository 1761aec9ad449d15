//! Operators and postfixes.

ghost use Rattle.std.specs.Prelude.{◌≡◌, IfOk, map};
ghost use Rattle.verse_tree.specs.Tree.{tree};
ghost use Rattle.verse_tree.specs.Tree as t;
ghost use Rattle.verse_tree.specs.View.{tree_of, trees};

use crate::nodes::node;
use crate::parts::{applied, two};
use crate::trees::{Tree, Trees};
use std::alloc::Global;
use verse_base::places::Place;
use verse_base::refusals::Memory;
use verse_tree::exprs::{Comparison, Form, Operator};
use verse_tree::names::Name;

/// Two operands of a chain.
pub fn chained(
    alloc: Global,
    place: Place,
    operator: Operator,
    left: Tree,
    right: Tree,
) -> Result<Tree, Memory>
    ensures { IfOk result (λ r. tree_of r ≡
        tree 0 place (t.Shape.chained operator (tree_of left) (tree_of right))) }
{
    node(alloc, place, Form::Chain(operator, two(left, right)))
}

/// Two operands that are compared.
pub fn compared(
    alloc: Global,
    place: Place,
    comparison: Comparison,
    left: Tree,
    right: Tree,
) -> Result<Tree, Memory>
    ensures { IfOk result (λ r. tree_of r ≡
        tree 0 place (t.Shape.compared comparison (tree_of left) (tree_of right))) }
{
    node(alloc, place, Form::Compare(comparison, two(left, right)))
}

/// `not E`
pub fn negation(alloc: Global, place: Place, operand: Tree) -> Result<Tree, Memory>
    ensures { IfOk result (λ r. tree_of r ≡ tree 0 place (t.Shape.negation (tree_of operand))) }
{
    node(alloc, place, Form::Not(operand.into_boxed()))
}

/// `-E`
pub fn minus(alloc: Global, place: Place, operand: Tree) -> Result<Tree, Memory>
    ensures { IfOk result (λ r. tree_of r ≡ tree 0 place (t.Shape.minus (tree_of operand))) }
{
    node(alloc, place, Form::Neg(operand.into_boxed()))
}

/// `E(F, G)`
pub fn call(alloc: Global, place: Place, callee: Tree, args: Trees) -> Result<Tree, Memory>
    ensures { IfOk result (λ r. tree_of r ≡
        tree 0 place (t.Shape.call (tree_of callee) (trees (map tree_of args)))) }
{
    node(alloc, place, Form::Call(applied(callee, args)))
}

/// `E[F, G]`
pub fn index(alloc: Global, place: Place, callee: Tree, args: Trees) -> Result<Tree, Memory>
    ensures { IfOk result (λ r. tree_of r ≡
        tree 0 place (t.Shape.index (tree_of callee) (trees (map tree_of args)))) }
{
    node(alloc, place, Form::Index(applied(callee, args)))
}

/// `E.F`
pub fn member(alloc: Global, place: Place, object: Tree, name: Name) -> Result<Tree, Memory>
    ensures { IfOk result (λ r. tree_of r ≡ tree 0 place (t.Shape.member (tree_of object) name)) }
{
    node(alloc, place, Form::Member(object.into_boxed(), name))
}

/// `E?`
pub fn query(alloc: Global, place: Place, operand: Tree) -> Result<Tree, Memory>
    ensures { IfOk result (λ r. tree_of r ≡ tree 0 place (t.Shape.query (tree_of operand))) }
{
    node(alloc, place, Form::Query(operand.into_boxed()))
}
