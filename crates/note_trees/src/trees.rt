//! The recursion over a tree.

ghost use Rattle.std.specs.Prelude.{◌≡◌, OnOk};
ghost use Rattle.verse_tree.specs.View.{tree_of};
ghost use Rattle.lower_expr.specs.Locals.{scope_of};
ghost use Rattle.note_stretches.specs.Noted.{noted, walked};
ghost use Rattle.note_parts.specs.Parts.{tree_walk};

use crate::forms::expression;
use lower_code::arounds::Around;
use lower_expr::scopes::Scopes;
use lower_items::tables::Tables;
use note_parts::noter::Noter;
use note_stretches::noting::Noting;
use verse_base::refusals::Memory;
use verse_tree::exprs::Expr;

/// The states of a tree that is nested no deeper than this; a deeper one counts as want of memory.
pub fn note_tree<'a>(
    tables: &'a Tables<'a>,
    depth: u32,
    noting: &mut Noting,
    scopes: &mut Scopes<'a>,
    around: Around,
    expr: &'a Expr,
) -> Result<(), Memory>
    ensures states { OnOk result (noted noting.new ≡ walked (tree_walk tables.now.program.now
        (tree_of expr.now) (scope_of scopes.old) around) (noted noting.old)) }
    ensures scopes { OnOk result (scope_of scopes.new ≡ scope_of scopes.old) }
{
    let noter = Noter {
        tables,
        depth,
        nested: note_tree,
    };
    expression(&noter, noting, scopes, around, expr)
}
