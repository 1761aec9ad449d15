//! Literals, names and what is written in brackets or braces.

ghost use Rattle.std.specs.Prelude.{◌≡◌, IfOk, map};
ghost use Rattle.verse_tree.specs.Tree.{tree};
ghost use Rattle.verse_tree.specs.Tree as t;
ghost use Rattle.verse_tree.specs.View.{tree_of, trees, holes, pairs, givens, hole_of, pair_of};
ghost use Rattle.verse_tree.specs.View.{given_of, event_shape};

use crate::lists::{Givens, Holes, Pairs};
use crate::nodes::node;
use crate::parts::optional;
use crate::trees::{Tree, Trees};
use crate::written::Written;
use std::alloc::Global;
use verse_base::places::Place;
use verse_base::refusals::Memory;
use verse_tree::exprs::Form;
use verse_tree::names::{Name, Text};

/// An int.
pub fn integer(alloc: Global, place: Place, value: i64) -> Result<Tree, Memory>
    ensures { IfOk result (λ r. tree_of r ≡ tree 0 place (t.Shape.integer value)) }
{
    node(alloc, place, Form::Int(value))
}

/// A char.
pub fn character(alloc: Global, place: Place, value: u8) -> Result<Tree, Memory>
    ensures { IfOk result (λ r. tree_of r ≡ tree 0 place (t.Shape.character value)) }
{
    node(alloc, place, Form::Char(value))
}

/// A text without holes.
pub fn text(alloc: Global, place: Place, bytes: Text) -> Result<Tree, Memory>
    ensures { IfOk result (λ r. tree_of r ≡ tree 0 place (t.Shape.text bytes)) }
{
    node(alloc, place, Form::Text(bytes))
}

/// A text with holes.
pub fn text_holes(alloc: Global, place: Place, bytes: Text, parts: Holes) -> Result<Tree, Memory>
    ensures { IfOk result (λ r. tree_of r ≡
        tree 0 place (t.Shape.holes bytes (holes (map hole_of parts)))) }
{
    node(alloc, place, Form::Holes(bytes, parts.into_items()))
}

/// `true`
pub fn truth(alloc: Global, place: Place) -> Result<Tree, Memory>
    ensures { IfOk result (λ r. tree_of r ≡ tree 0 place t.Shape.truth) }
{
    node(alloc, place, Form::True)
}

/// `false`
pub fn falsehood(alloc: Global, place: Place) -> Result<Tree, Memory>
    ensures { IfOk result (λ r. tree_of r ≡ tree 0 place t.Shape.falsehood) }
{
    node(alloc, place, Form::False)
}

/// `Self`
pub fn this(alloc: Global, place: Place) -> Result<Tree, Memory>
    ensures { IfOk result (λ r. tree_of r ≡ tree 0 place t.Shape.this) }
{
    node(alloc, place, Form::This)
}

/// A name.
pub fn name_alone(alloc: Global, place: Place, name: Name) -> Result<Tree, Memory>
    ensures { IfOk result (λ r. tree_of r ≡ tree 0 place (t.Shape.name name)) }
{
    node(alloc, place, Form::Name(name))
}

/// Expressions in round brackets.
pub fn tuple(alloc: Global, place: Place, parts: Trees) -> Result<Tree, Memory>
    ensures { IfOk result (λ r. tree_of r ≡
        tree 0 place (t.Shape.tuple (trees (map tree_of parts)))) }
{
    node(alloc, place, Form::Tuple(parts.into_items()))
}

/// `array{..}`
pub fn array(alloc: Global, place: Place, parts: Trees) -> Result<Tree, Memory>
    ensures { IfOk result (λ r. tree_of r ≡
        tree 0 place (t.Shape.array (trees (map tree_of parts)))) }
{
    node(alloc, place, Form::Array(parts.into_items()))
}

/// `map{..}`
pub fn mapping(alloc: Global, place: Place, parts: Pairs) -> Result<Tree, Memory>
    ensures { IfOk result (λ r. tree_of r ≡
        tree 0 place (t.Shape.mapping (pairs (map pair_of parts)))) }
{
    node(alloc, place, Form::Map(parts.into_items()))
}

/// `option{..}`
pub fn option(alloc: Global, place: Place, parts: Trees) -> Result<Tree, Memory>
    ensures { IfOk result (λ r. tree_of r ≡
        tree 0 place (t.Shape.option (trees (map tree_of parts)))) }
{
    node(alloc, place, Form::Option(parts.into_items()))
}

/// `logic{..}`
pub fn logic(alloc: Global, place: Place, parts: Trees) -> Result<Tree, Memory>
    ensures { IfOk result (λ r. tree_of r ≡
        tree 0 place (t.Shape.logic (trees (map tree_of parts)))) }
{
    node(alloc, place, Form::Logic(parts.into_items()))
}

/// `c{F := E}`
pub fn instance(alloc: Global, place: Place, name: Name, parts: Givens) -> Result<Tree, Memory>
    ensures { IfOk result (λ r. tree_of r ≡
        tree 0 place (t.Shape.instance name (givens (map given_of parts)))) }
{
    node(alloc, place, Form::Instance(name, parts.into_items()))
}

/// `event(t){}`
pub fn event(alloc: Global, place: Place, ty: Option<Written>) -> Result<Tree, Memory>
    ensures { IfOk result (λ r. tree_of r ≡ tree 0 place (event_shape ty)) }
{
    node(alloc, place, Form::Event(optional(ty)))
}
