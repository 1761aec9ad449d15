//! Forms with a word of their own, and what a `for` takes.

ghost use Rattle.std.specs.Prelude.{◌≡◌, IfOk, map};
ghost use Rattle.verse_tree.specs.Tree.{tree};
ghost use Rattle.verse_tree.specs.Tree as t;
ghost use Rattle.verse_tree.specs.View.{tree_of, trees};

use crate::nodes::node;
use crate::parts::{choosing, taking, two};
use crate::trees::{Tree, Trees};
use std::alloc::Global;
use verse_base::places::Place;
use verse_base::refusals::Memory;
use verse_tree::exprs::Form;
use verse_tree::names::Name;

/// `for`
pub fn for_form(alloc: Global, place: Place, clauses: Trees, body: Tree) -> Result<Tree, Memory>
    ensures { IfOk result (λ r. tree_of r ≡
        tree 0 place (t.Shape.for_form (trees (map tree_of clauses)) (tree_of body))) }
{
    node(alloc, place, Form::For(taking(clauses, body)))
}

/// `loop`
pub fn loop_form(alloc: Global, place: Place, body: Tree) -> Result<Tree, Memory>
    ensures { IfOk result (λ r. tree_of r ≡ tree 0 place (t.Shape.loop_form (tree_of body))) }
{
    node(alloc, place, Form::Loop(body.into_boxed()))
}

/// `block`
pub fn block_form(alloc: Global, place: Place, body: Tree) -> Result<Tree, Memory>
    ensures { IfOk result (λ r. tree_of r ≡ tree 0 place (t.Shape.block_form (tree_of body))) }
{
    node(alloc, place, Form::BlockForm(body.into_boxed()))
}

/// `branch`
pub fn branch(alloc: Global, place: Place, body: Tree) -> Result<Tree, Memory>
    ensures { IfOk result (λ r. tree_of r ≡ tree 0 place (t.Shape.branch (tree_of body))) }
{
    node(alloc, place, Form::Branch(body.into_boxed()))
}

/// `sync`
pub fn sync(alloc: Global, place: Place, arms: Trees) -> Result<Tree, Memory>
    ensures { IfOk result (λ r. tree_of r ≡
        tree 0 place (t.Shape.sync (trees (map tree_of arms)))) }
{
    node(alloc, place, Form::Sync(arms.into_items()))
}

/// `race`
pub fn race(alloc: Global, place: Place, arms: Trees) -> Result<Tree, Memory>
    ensures { IfOk result (λ r. tree_of r ≡
        tree 0 place (t.Shape.race (trees (map tree_of arms)))) }
{
    node(alloc, place, Form::Race(arms.into_items()))
}

/// `rush`
pub fn rush(alloc: Global, place: Place, arms: Trees) -> Result<Tree, Memory>
    ensures { IfOk result (λ r. tree_of r ≡
        tree 0 place (t.Shape.rush (trees (map tree_of arms)))) }
{
    node(alloc, place, Form::Rush(arms.into_items()))
}

/// `case`
pub fn cases(alloc: Global, place: Place, subject: Tree, arms: Trees) -> Result<Tree, Memory>
    ensures { IfOk result (λ r. tree_of r ≡
        tree 0 place (t.Shape.cases (tree_of subject) (trees (map tree_of arms)))) }
{
    node(alloc, place, Form::Case(choosing(subject, arms)))
}

/// `spawn{E}`
pub fn spawn(alloc: Global, place: Place, operand: Tree) -> Result<Tree, Memory>
    ensures { IfOk result (λ r. tree_of r ≡ tree 0 place (t.Shape.spawn (tree_of operand))) }
{
    node(alloc, place, Form::Spawn(operand.into_boxed()))
}

/// `Sleep` for so many milliseconds.
pub fn sleep(alloc: Global, place: Place, milliseconds: u64) -> Result<Tree, Memory>
    ensures { IfOk result (λ r. tree_of r ≡ tree 0 place (t.Shape.sleep milliseconds)) }
{
    node(alloc, place, Form::Sleep(Some(milliseconds)))
}

/// `Sleep(Inf)`
pub fn sleep_forever(alloc: Global, place: Place) -> Result<Tree, Memory>
    ensures { IfOk result (λ r. tree_of r ≡ tree 0 place t.Shape.sleep_forever) }
{
    node(alloc, place, Form::Sleep(None))
}

/// `X : E`
pub fn elements(alloc: Global, place: Place, name: Name, domain: Tree) -> Result<Tree, Memory>
    ensures { IfOk result (λ r. tree_of r ≡ tree 0 place (t.Shape.elements name (tree_of domain))) }
{
    node(alloc, place, Form::Elements(name, domain.into_boxed()))
}

/// `K -> V : E`
pub fn entries(
    alloc: Global,
    place: Place,
    key: Name,
    value: Name,
    domain: Tree,
) -> Result<Tree, Memory>
    ensures { IfOk result (λ r. tree_of r ≡
        tree 0 place (t.Shape.entries key value (tree_of domain))) }
{
    node(alloc, place, Form::Entries(key, value, domain.into_boxed()))
}

/// `I := L..H`
pub fn range(alloc: Global, place: Place, name: Name, low: Tree, high: Tree) -> Result<Tree, Memory>
    ensures { IfOk result (λ r. tree_of r ≡
        tree 0 place (t.Shape.range name (tree_of low) (tree_of high))) }
{
    node(alloc, place, Form::Range(name, two(low, high)))
}
