//! Tuples and arrays.

ghost use Rattle.std.specs.Prelude.{◌≡◌, ◌+◌, map, OnOk, IfOk};
ghost use Rattle.verse_tree.specs.View.{tree_of, trees};
ghost use Rattle.verse_tree.specs.Tree as t;
ghost use Rattle.lower_expr.specs.Building.{built, made};
ghost use Rattle.lower_expr.specs.Locals.{scope_of};
ghost use Rattle.lower_parts.specs.Parts.{form_code, operands_code, Lowers};
ghost use Rattle.lower_values.specs.Parts.{all_ended};

use lower_code::arounds::Around;
use lower_declared::numbers::number_of;
use lower_expr::builder::Builder;
use lower_expr::endings::Ending;
use lower_expr::scopes::Scopes;
use lower_items::tables::Tables;
use lower_lookup::statements::how_many;
use lower_parts::lowering::Lowering;
use verse_base::places::Place;
use verse_base::refusals::Memory;
use verse_code::operations::Op;
use verse_tree::exprs::Expr;

/// Operands, and what ends them.
fn all<
    'a,
    F: Fn(
        &'a Tables<'a>,
        u32,
        &mut Builder,
        &mut Scopes<'a>,
        Around,
        &'a Expr,
    ) -> Result<(), Memory>,
>(
    lowering: &Lowering<'a, F>,
    builder: &mut Builder,
    scopes: &mut Scopes<'a>,
    around: Around,
    parts: &'a [Expr],
    ending: Ending,
) -> Result<(), Memory>
    requires nests { Lowers lowering.now.depth (F.pre lowering.now.nested)
        (F.post lowering.now.nested) }
    ensures code { OnOk result (built builder.new ≡ made (all_ended
        lowering.now.tables.now.program.now (trees (map tree_of parts.now)) ending (scope_of
        scopes.old) around) (built builder.old)) }
    ensures scopes { OnOk result (scope_of scopes.new ≡ scope_of scopes.old) }
{
    lowering.operands(builder, scopes, around, parts)?;
    builder.ending(ending)?;
    Ok(())
}

/// `(E, F)`
pub fn tuple<
    'a,
    F: Fn(
        &'a Tables<'a>,
        u32,
        &mut Builder,
        &mut Scopes<'a>,
        Around,
        &'a Expr,
    ) -> Result<(), Memory>,
>(
    lowering: &Lowering<'a, F>,
    builder: &mut Builder,
    scopes: &mut Scopes<'a>,
    around: Around,
    place: Place,
    parts: &'a [Expr],
) -> Result<(), Memory>
    requires nests { Lowers lowering.now.depth (F.pre lowering.now.nested)
        (F.post lowering.now.nested) }
    ensures code { OnOk result (built builder.new ≡ made (form_code
        lowering.now.tables.now.program.now (t.Shape.tuple (trees (map tree_of parts.now))) 0
        place (scope_of scopes.old) around) (built builder.old)) }
    ensures scopes { OnOk result (scope_of scopes.new ≡ scope_of scopes.old) }
{
    let count = number_of(how_many(parts))?;
    all(
        lowering,
        builder,
        scopes,
        around,
        parts,
        Ending::Placed(place, Op::Tuple(count, 0)),
    )?;
    Ok(())
}

/// `array{E, F}`
pub fn array<
    'a,
    F: Fn(
        &'a Tables<'a>,
        u32,
        &mut Builder,
        &mut Scopes<'a>,
        Around,
        &'a Expr,
    ) -> Result<(), Memory>,
>(
    lowering: &Lowering<'a, F>,
    builder: &mut Builder,
    scopes: &mut Scopes<'a>,
    around: Around,
    place: Place,
    parts: &'a [Expr],
) -> Result<(), Memory>
    requires nests { Lowers lowering.now.depth (F.pre lowering.now.nested)
        (F.post lowering.now.nested) }
    ensures code { OnOk result (built builder.new ≡ made (form_code
        lowering.now.tables.now.program.now (t.Shape.array (trees (map tree_of parts.now))) 0
        place (scope_of scopes.old) around) (built builder.old)) }
    ensures scopes { OnOk result (scope_of scopes.new ≡ scope_of scopes.old) }
{
    let count = number_of(how_many(parts))?;
    all(
        lowering,
        builder,
        scopes,
        around,
        parts,
        Ending::Placed(place, Op::Array(count, 0)),
    )?;
    Ok(())
}
