//! The recursion over a tree.

ghost use Rattle.std.specs.Prelude.{◌≡◌, OnOk};
ghost use Rattle.verse_tree.specs.View.{tree_of};
ghost use Rattle.lower_expr.specs.Building.{built, made};
ghost use Rattle.lower_expr.specs.Locals.{scope_of};
ghost use Rattle.lower_parts.specs.Parts.{tree_code};

use crate::forms::expression;
use lower_code::arounds::Around;
use lower_expr::builder::Builder;
use lower_expr::scopes::Scopes;
use lower_items::tables::Tables;
use lower_parts::lowering::Lowering;
use verse_base::refusals::Memory;
use verse_tree::exprs::Expr;

/// The code of a tree that is nested no deeper than this; a deeper one counts as want of memory.
pub(crate) fn lower_tree<'a>(
    tables: &'a Tables<'a>,
    depth: u32,
    builder: &mut Builder,
    scopes: &mut Scopes<'a>,
    around: Around,
    expr: &'a Expr,
) -> Result<(), Memory>
    ensures code { OnOk result (built builder.new ≡ made (tree_code tables.now.program.now
        (tree_of expr.now) (scope_of scopes.old) around) (built builder.old)) }
    ensures scopes { OnOk result (scope_of scopes.new ≡ scope_of scopes.old) }
{
    let lowering = Lowering {
        tables,
        depth,
        nested: lower_tree,
    };
    expression(&lowering, builder, scopes, around, expr)
}
