//! Blocks, and definitions that are no statements of a block.

ghost use Rattle.std.specs.Prelude.{◌≡◌, map, OnOk};
ghost use Rattle.verse_tree.specs.Tree as t;
ghost use Rattle.verse_tree.specs.View.{tree_of, trees};
ghost use Rattle.lower_expr.specs.Building.{built, made};
ghost use Rattle.lower_expr.specs.Locals.{scope_of};
ghost use Rattle.lower_parts.specs.Parts.{form_code, Lowers, no_place};
ghost use Rattle.lower_blocks.specs.Codes.{constant_shape, variable_shape};

use crate::statements::own_statements;
use lower_code::arounds::Around;
use lower_expr::builder::Builder;
use lower_expr::endings::Ending;
use lower_expr::scopes::Scopes;
use lower_items::tables::Tables;
use lower_parts::lowering::Lowering;
use verse_base::places::Place;
use verse_base::refusals::Memory;
use verse_tree::exprs::Expr;

/// Statements between Open and Close.
pub fn block<
    'a,
    F: Fn(
        &'a Tables<'a>,
        u32,
        &mut Builder,
        &mut Scopes<'a>,
        Around,
        &'a Expr,
    ) -> Result<(), Memory>,
>(
    lowering: &Lowering<'a, F>,
    builder: &mut Builder,
    scopes: &mut Scopes<'a>,
    around: Around,
    parts: &'a [Expr],
) -> Result<(), Memory>
    requires nests { Lowers lowering.now.depth (F.pre lowering.now.nested)
        (F.post lowering.now.nested) }
    ensures code { OnOk result (built builder.new ≡ made (form_code
        lowering.now.tables.now.program.now (t.Shape.block (trees (map tree_of parts.now))) 0
        no_place (scope_of scopes.old) around) (built builder.old)) }
    ensures scopes { OnOk result (scope_of scopes.new ≡ scope_of scopes.old) }
{
    own_statements(lowering, builder, scopes, around, parts)?;
    Ok(())
}

/// The value of a constant, which is defined where no name is seen behind it.
pub fn constant<
    'a,
    F: Fn(
        &'a Tables<'a>,
        u32,
        &mut Builder,
        &mut Scopes<'a>,
        Around,
        &'a Expr,
    ) -> Result<(), Memory>,
>(
    lowering: &Lowering<'a, F>,
    builder: &mut Builder,
    scopes: &mut Scopes<'a>,
    around: Around,
    value: &'a Expr,
) -> Result<(), Memory>
    requires nests { Lowers lowering.now.depth (F.pre lowering.now.nested)
        (F.post lowering.now.nested) }
    ensures code { OnOk result (built builder.new ≡ made (form_code
        lowering.now.tables.now.program.now (constant_shape (tree_of value.now)) 0 no_place
        (scope_of scopes.old) around) (built builder.old)) }
    ensures scopes { OnOk result (scope_of scopes.new ≡ scope_of scopes.old) }
{
    let local = scopes.count()?;
    lowering.part(builder, scopes, around, value)?;
    builder.keep(local)?;
    Ok(())
}

/// The value of a variable, which is defined where no name is seen behind it.
pub fn variable<
    'a,
    F: Fn(
        &'a Tables<'a>,
        u32,
        &mut Builder,
        &mut Scopes<'a>,
        Around,
        &'a Expr,
    ) -> Result<(), Memory>,
>(
    lowering: &Lowering<'a, F>,
    builder: &mut Builder,
    scopes: &mut Scopes<'a>,
    around: Around,
    place: Place,
    value: &'a Expr,
) -> Result<(), Memory>
    requires nests { Lowers lowering.now.depth (F.pre lowering.now.nested)
        (F.post lowering.now.nested) }
    ensures code { OnOk result (built builder.new ≡ made (form_code
        lowering.now.tables.now.program.now (variable_shape (tree_of value.now)) 0 place
        (scope_of scopes.old) around) (built builder.old)) }
    ensures scopes { OnOk result (scope_of scopes.new ≡ scope_of scopes.old) }
{
    let local = scopes.count()?;
    lowering.part(builder, scopes, around, value)?;
    builder.ending(Ending::Vary(place, local))?;
    Ok(())
}

/// `return E`
pub fn returned<
    'a,
    F: Fn(
        &'a Tables<'a>,
        u32,
        &mut Builder,
        &mut Scopes<'a>,
        Around,
        &'a Expr,
    ) -> Result<(), Memory>,
>(
    lowering: &Lowering<'a, F>,
    builder: &mut Builder,
    scopes: &mut Scopes<'a>,
    around: Around,
    value: &'a Expr,
) -> Result<(), Memory>
    requires nests { Lowers lowering.now.depth (F.pre lowering.now.nested)
        (F.post lowering.now.nested) }
    ensures code { OnOk result (built builder.new ≡ made (form_code
        lowering.now.tables.now.program.now (t.Shape.returned (tree_of value.now)) 0 no_place
        (scope_of scopes.old) around) (built builder.old)) }
    ensures scopes { OnOk result (scope_of scopes.new ≡ scope_of scopes.old) }
{
    lowering.part(builder, scopes, around, value)?;
    builder.returning(around)?;
    Ok(())
}
