//! How a node is made.

ghost use Rattle.std.specs.Prelude.{◌≡◌, IfOk};
ghost use Rattle.verse_tree.specs.Tree.{tree};
ghost use Rattle.verse_tree.specs.View.{tree_of, shape_of};

use crate::trees::Tree;
use std::alloc::Global;
use verse_base::places::Place;
use verse_base::refusals::Memory;
use verse_tree::exprs::{Expr, Form};

/// A node with its number.
pub fn numbered_node(alloc: Global, number: u32, place: Place, form: Form) -> Result<Tree, Memory>
    ensures { IfOk result (λ r. tree_of r ≡ tree number place (shape_of form)) }
{
    let expr = Expr {
        node: number,
        place,
        form,
    };
    Ok(Tree::new(alloc, expr)?)
}

/// A node that has no number yet.
pub fn node(alloc: Global, place: Place, form: Form) -> Result<Tree, Memory>
    ensures { IfOk result (λ r. tree_of r ≡ tree 0 place (shape_of form)) }
{
    let expr = Expr {
        node: 0,
        place,
        form,
    };
    Ok(Tree::new(alloc, expr)?)
}
