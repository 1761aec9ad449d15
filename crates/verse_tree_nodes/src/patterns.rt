//! The arms of a `case` and their patterns.

ghost use Rattle.std.specs.Prelude.{◌≡◌, IfOk};
ghost use Rattle.verse_tree.specs.Tree.{tree};
ghost use Rattle.verse_tree.specs.Tree as t;
ghost use Rattle.verse_tree.specs.View.{tree_of};

use crate::nodes::node;
use crate::parts::two;
use crate::trees::Tree;
use std::alloc::Global;
use verse_base::places::Place;
use verse_base::refusals::Memory;
use verse_tree::exprs::Form;
use verse_tree::names::{Name, Text};

/// `P => E`
pub fn arm(alloc: Global, place: Place, pattern: Tree, body: Tree) -> Result<Tree, Memory>
    ensures { IfOk result (λ r. tree_of r ≡
        tree 0 place (t.Shape.arm (tree_of pattern) (tree_of body))) }
{
    node(alloc, place, Form::Arm(two(pattern, body)))
}

/// The pattern of an int.
pub fn integer_pattern(alloc: Global, place: Place, value: i64) -> Result<Tree, Memory>
    ensures { IfOk result (λ r. tree_of r ≡ tree 0 place (t.Shape.integer_pattern value)) }
{
    node(alloc, place, Form::IntPattern(value))
}

/// The pattern `-n`, by n.
pub fn minus_pattern(alloc: Global, place: Place, value: i64) -> Result<Tree, Memory>
    ensures { IfOk result (λ r. tree_of r ≡ tree 0 place (t.Shape.minus_pattern value)) }
{
    node(alloc, place, Form::MinusPattern(value))
}

/// The pattern of a char.
pub fn character_pattern(alloc: Global, place: Place, value: u8) -> Result<Tree, Memory>
    ensures { IfOk result (λ r. tree_of r ≡ tree 0 place (t.Shape.character_pattern value)) }
{
    node(alloc, place, Form::CharPattern(value))
}

/// The pattern of a text.
pub fn text_pattern(alloc: Global, place: Place, bytes: Text) -> Result<Tree, Memory>
    ensures { IfOk result (λ r. tree_of r ≡ tree 0 place (t.Shape.text_pattern bytes)) }
{
    node(alloc, place, Form::TextPattern(bytes))
}

/// The pattern `true`.
pub fn truth_pattern(alloc: Global, place: Place) -> Result<Tree, Memory>
    ensures { IfOk result (λ r. tree_of r ≡ tree 0 place t.Shape.truth_pattern) }
{
    node(alloc, place, Form::TruePattern)
}

/// The pattern `false`.
pub fn falsehood_pattern(alloc: Global, place: Place) -> Result<Tree, Memory>
    ensures { IfOk result (λ r. tree_of r ≡ tree 0 place t.Shape.falsehood_pattern) }
{
    node(alloc, place, Form::FalsePattern)
}

/// The pattern `_`.
pub fn any_pattern(alloc: Global, place: Place) -> Result<Tree, Memory>
    ensures { IfOk result (λ r. tree_of r ≡ tree 0 place t.Shape.any_pattern) }
{
    node(alloc, place, Form::AnyPattern)
}

/// The pattern `e.v`.
pub fn enum_pattern(alloc: Global, place: Place, name: Name, value: Name) -> Result<Tree, Memory>
    ensures { IfOk result (λ r. tree_of r ≡ tree 0 place (t.Shape.enum_pattern name value)) }
{
    node(alloc, place, Form::EnumPattern(name, value))
}
