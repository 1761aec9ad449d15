//! Nodes that hold no expression, each with its number.

ghost use Rattle.std.specs.Prelude.{◌≡◌, ◌≤◌, ◌+◌, IfOk};
ghost use Rattle.verse_tree.specs.View.{tree_of, shape_of, event_shape};
ghost use Rattle.verse_tree.specs.Numbering.{shape_nodes, shape_numbered};
ghost use Rattle.verse_tree.specs.Tree.{tree};
ghost use Rattle.verse_tree.specs.Tree as t;

use crate::copies::copied;
use crate::type_numbering::number_type;
use std::alloc::Global;
use verse_base::places::Place;
use verse_base::refusals::Memory;
use verse_tree::exprs::Form;
use verse_tree::names::{Name, Text};
use verse_tree::types::TyExpr;
use verse_tree_nodes::nodes::numbered_node;
use verse_tree_nodes::trees::Tree;

/// A node with the number `node`, and the number behind it.
pub fn made(alloc: Global, node: u32, place: Place, form: Form) -> Result<(Tree, u32), Memory>
    requires fits { node + 1 ≤ 4294967295 }
    ensures made { IfOk result (λ r. tree_of r.0 ≡ tree node place (shape_of form)) }
    ensures behind { IfOk result (λ r. r.1 ≡ node + 1) }
{
    let made = numbered_node(alloc, node, place, form)?;
    Ok((made, node + 1))
}

/// A copy of a text, its number being `next`, and the number behind it.
pub fn number_text(
    alloc: Global,
    place: Place,
    text: &Text,
    next: u32,
) -> Result<(Tree, u32), Memory>
    requires fits { next + 1 ≤ 4294967295 }
    ensures numbered { IfOk result (λ r. tree_of r.0 ≡ tree next place (t.Shape.text text.now)) }
    ensures behind { IfOk result (λ r. r.1 ≡ next + 1) }
{
    let text = copied(alloc, text)?;
    made(alloc, next, place, Form::Text(text))
}

/// A copy of a pattern that is a text, its number being `next`, and the number behind it.
pub fn number_text_pattern(
    alloc: Global,
    place: Place,
    text: &Text,
    next: u32,
) -> Result<(Tree, u32), Memory>
    requires fits { next + 1 ≤ 4294967295 }
    ensures numbered { IfOk result
        (λ r. tree_of r.0 ≡ tree next place (t.Shape.text_pattern text.now)) }
    ensures behind { IfOk result (λ r. r.1 ≡ next + 1) }
{
    let text = copied(alloc, text)?;
    made(alloc, next, place, Form::TextPattern(text))
}

/// A copy of a name, its number being `next`, and the number behind it.
pub fn number_name(
    alloc: Global,
    place: Place,
    name: &Name,
    next: u32,
) -> Result<(Tree, u32), Memory>
    requires fits { next + 1 ≤ 4294967295 }
    ensures numbered { IfOk result (λ r. tree_of r.0 ≡ tree next place (t.Shape.name name.now)) }
    ensures behind { IfOk result (λ r. r.1 ≡ next + 1) }
{
    let name = copied(alloc, name)?;
    made(alloc, next, place, Form::Name(name))
}

/// A copy of a pattern that is a value of an enum, its number being `next`, and the number behind
/// it.
pub fn number_enum_pattern(
    alloc: Global,
    place: Place,
    name: &Name,
    value: &Name,
    next: u32,
) -> Result<(Tree, u32), Memory>
    requires fits { next + 1 ≤ 4294967295 }
    ensures numbered { IfOk result
        (λ r. tree_of r.0 ≡ tree next place (t.Shape.enum_pattern name.now value.now)) }
    ensures behind { IfOk result (λ r. r.1 ≡ next + 1) }
{
    let name = copied(alloc, name)?;
    let value = copied(alloc, value)?;
    made(alloc, next, place, Form::EnumPattern(name, value))
}

/// An event whose type is numbered where it is written.
pub fn number_event(
    alloc: Global,
    place: Place,
    ty: &Option<TyExpr>,
    next: u32,
) -> Result<(Tree, u32), Memory>
    requires fits { next + (shape_nodes (event_shape ty.now) + 1) ≤ 4294967295 }
    ensures numbered { IfOk result
        (λ r. tree_of r.0 ≡ tree (next + shape_nodes (event_shape ty.now)) place
        (shape_numbered (event_shape ty.now) next)) }
    ensures behind { IfOk result (λ r. r.1 ≡ next + (shape_nodes (event_shape ty.now) + 1)) }
{
    match ty {
        None => made(alloc, next, place, Form::Event(None)),
        Some(ty) => {
            let (ty, behind) = number_type(alloc, ty, next)?;
            made(alloc, behind, place, Form::Event(Some(ty.into_ty())))
        }
    }
}
