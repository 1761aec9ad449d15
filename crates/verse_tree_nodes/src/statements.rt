//! Blocks, statements and `if`.

ghost use Rattle.std.specs.Prelude.{◌≡◌, IfOk, map};
ghost use Rattle.verse_tree.specs.Tree.{tree};
ghost use Rattle.verse_tree.specs.Tree as t;
ghost use Rattle.verse_tree.specs.View.{tree_of, written_of, trees};

use crate::nodes::node;
use crate::parts::{alternative, returning, single, two, with_type};
use crate::trees::{Tree, Trees};
use crate::written::Written;
use std::alloc::Global;
use verse_base::places::Place;
use verse_base::refusals::Memory;
use verse_tree::exprs::{Assign, Form};
use verse_tree::names::Name;

/// Statements between Open and Close.
pub fn block(alloc: Global, place: Place, parts: Trees) -> Result<Tree, Memory>
    ensures { IfOk result (λ r. tree_of r ≡
        tree 0 place (t.Shape.block (trees (map tree_of parts)))) }
{
    node(alloc, place, Form::Block(parts.into_items()))
}

/// `defer` and its block.
pub fn defer(alloc: Global, place: Place, body: Tree) -> Result<Tree, Memory>
    ensures { IfOk result (λ r. tree_of r ≡ tree 0 place (t.Shape.defer (tree_of body))) }
{
    node(alloc, place, Form::Defer(body.into_boxed()))
}

/// `X := E`
pub fn definition(alloc: Global, place: Place, name: Name, value: Tree) -> Result<Tree, Memory>
    ensures { IfOk result (λ r. tree_of r ≡
        tree 0 place (t.Shape.definition name (tree_of value))) }
{
    node(alloc, place, Form::Let(name, value.into_boxed()))
}

/// `X:t = E`
pub fn typed(
    alloc: Global,
    place: Place,
    name: Name,
    ty: Written,
    value: Tree,
) -> Result<Tree, Memory>
    ensures { IfOk result (λ r. tree_of r ≡
        tree 0 place (t.Shape.typed name (written_of ty) (tree_of value))) }
{
    node(alloc, place, Form::Def(name, with_type(ty, value)))
}

/// `var X:t = E`
pub fn variable(
    alloc: Global,
    place: Place,
    name: Name,
    ty: Written,
    value: Tree,
) -> Result<Tree, Memory>
    ensures { IfOk result (λ r. tree_of r ≡
        tree 0 place (t.Shape.variable name (written_of ty) (tree_of value))) }
{
    node(alloc, place, Form::VarDef(name, with_type(ty, value)))
}

/// `set P = E` and its like.
pub fn assignment(
    alloc: Global,
    place: Place,
    mode: Assign,
    target: Tree,
    value: Tree,
) -> Result<Tree, Memory>
    ensures { IfOk result (λ r. tree_of r ≡
        tree 0 place (t.Shape.assignment mode (tree_of target) (tree_of value))) }
{
    node(alloc, place, Form::Set(mode, two(target, value)))
}

/// `return E`
pub fn returned(alloc: Global, place: Place, value: Tree) -> Result<Tree, Memory>
    ensures { IfOk result (λ r. tree_of r ≡ tree 0 place (t.Shape.returned (tree_of value))) }
{
    node(alloc, place, returning(Some(value.into_boxed())))
}

/// `return`
pub fn returned_unit(alloc: Global, place: Place) -> Result<Tree, Memory>
    ensures { IfOk result (λ r. tree_of r ≡ tree 0 place t.Shape.returned_unit) }
{
    node(alloc, place, Form::Return(None))
}

/// `break`
pub fn break_form(alloc: Global, place: Place) -> Result<Tree, Memory>
    ensures { IfOk result (λ r. tree_of r ≡ tree 0 place t.Shape.break_form) }
{
    node(alloc, place, Form::Break)
}

/// `if` with an other part.
pub fn if_else(
    alloc: Global,
    place: Place,
    conditions: Trees,
    taken: Tree,
    otherwise: Tree,
) -> Result<Tree, Memory>
    ensures { IfOk result (λ r. tree_of r ≡
        tree 0 place (t.Shape.if_else (trees (map tree_of conditions)) (tree_of taken)
        (tree_of otherwise))) }
{
    node(
        alloc,
        place,
        Form::If(alternative(conditions, taken, otherwise)),
    )
}

/// `if` without an other part.
pub fn if_alone(alloc: Global, place: Place, conditions: Trees, taken: Tree) -> Result<Tree, Memory>
    ensures { IfOk result (λ r. tree_of r ≡
        tree 0 place (t.Shape.if_alone (trees (map tree_of conditions)) (tree_of taken))) }
{
    node(alloc, place, Form::If(single(conditions, taken)))
}
