//! One or two operands, and what ends them.

ghost use Rattle.std.specs.Prelude.{◌≡◌, ℕ, OnOk};
ghost use Rattle.verse_base.specs.declared.places.Place.{Place};
ghost use Rattle.verse_tree.specs.View.{tree_of, two_of};
ghost use Rattle.verse_tree.specs.Tree as t;
ghost use Rattle.lower_expr.specs.Building.{built, made};
ghost use Rattle.lower_expr.specs.Locals.{scope_of};
ghost use Rattle.lower_parts.specs.Parts.{form_code, Lowers};
ghost use Rattle.lower_values.specs.Parts.{arithmetic_code, one_ended, two_ended};

use lower_code::arounds::Around;
use lower_expr::builder::Builder;
use lower_expr::endings::{Ending, comparing, computing};
use lower_expr::scopes::Scopes;
use lower_items::tables::Tables;
use lower_lookup::types::is_array;
use lower_parts::lowering::Lowering;
use lower_parts::parts::{left, right};
use verse_base::places::Place;
use verse_base::refusals::Memory;
use verse_code::operations::Op;
use verse_tree::exprs::{Comparison, Expr, Operator, Two};

/// A part, and what ends it.
fn one<
    'a,
    F: Fn(
        &'a Tables<'a>,
        u32,
        &mut Builder,
        &mut Scopes<'a>,
        Around,
        &'a Expr,
    ) -> Result<(), Memory>,
>(
    lowering: &Lowering<'a, F>,
    builder: &mut Builder,
    scopes: &mut Scopes<'a>,
    around: Around,
    part: &'a Expr,
    ending: Ending,
) -> Result<(), Memory>
    requires nests { Lowers lowering.now.depth (F.pre lowering.now.nested)
        (F.post lowering.now.nested) }
    ensures code { OnOk result (built builder.new ≡ made (one_ended
        lowering.now.tables.now.program.now
        (tree_of part.now) ending (scope_of scopes.old) around) (built builder.old)) }
    ensures scopes { OnOk result (scope_of scopes.new ≡ scope_of scopes.old) }
{
    lowering.part(builder, scopes, around, part)?;
    builder.ending(ending)?;
    Ok(())
}

/// Two parts, and what ends them.
fn two<
    'a,
    F: Fn(
        &'a Tables<'a>,
        u32,
        &mut Builder,
        &mut Scopes<'a>,
        Around,
        &'a Expr,
    ) -> Result<(), Memory>,
>(
    lowering: &Lowering<'a, F>,
    builder: &mut Builder,
    scopes: &mut Scopes<'a>,
    around: Around,
    parts: &'a Two,
    ending: Ending,
) -> Result<(), Memory>
    requires nests { Lowers lowering.now.depth (F.pre lowering.now.nested)
        (F.post lowering.now.nested) }
    ensures code { OnOk result (built builder.new ≡ made (two_ended
        lowering.now.tables.now.program.now
        (two_of parts.now).0 (two_of parts.now).1 ending (scope_of scopes.old) around) (built
        builder.old)) }
    ensures scopes { OnOk result (scope_of scopes.new ≡ scope_of scopes.old) }
{
    lowering.part(builder, scopes, around, left(parts))?;
    let above = around.up()?;
    lowering.part(builder, scopes, above, right(parts))?;
    builder.ending(ending)?;
    Ok(())
}

/// `-E`
pub fn minus<
    'a,
    F: Fn(
        &'a Tables<'a>,
        u32,
        &mut Builder,
        &mut Scopes<'a>,
        Around,
        &'a Expr,
    ) -> Result<(), Memory>,
>(
    lowering: &Lowering<'a, F>,
    builder: &mut Builder,
    scopes: &mut Scopes<'a>,
    around: Around,
    place: Place,
    part: &'a Expr,
) -> Result<(), Memory>
    requires nests { Lowers lowering.now.depth (F.pre lowering.now.nested)
        (F.post lowering.now.nested) }
    ensures code { OnOk result (built builder.new ≡ made (form_code
        lowering.now.tables.now.program.now
        (t.Shape.minus (tree_of part.now)) 0 place (scope_of scopes.old) around) (built
        builder.old)) }
    ensures scopes { OnOk result (scope_of scopes.new ≡ scope_of scopes.old) }
{
    one(
        lowering,
        builder,
        scopes,
        around,
        part,
        Ending::Placed(place, Op::Neg(0)),
    )
}

/// `E?`
pub fn query<
    'a,
    F: Fn(
        &'a Tables<'a>,
        u32,
        &mut Builder,
        &mut Scopes<'a>,
        Around,
        &'a Expr,
    ) -> Result<(), Memory>,
>(
    lowering: &Lowering<'a, F>,
    builder: &mut Builder,
    scopes: &mut Scopes<'a>,
    around: Around,
    place: Place,
    part: &'a Expr,
) -> Result<(), Memory>
    requires nests { Lowers lowering.now.depth (F.pre lowering.now.nested)
        (F.post lowering.now.nested) }
    ensures code { OnOk result (built builder.new ≡ made (form_code
        lowering.now.tables.now.program.now
        (t.Shape.query (tree_of part.now)) 0 place (scope_of scopes.old) around) (built
        builder.old)) }
    ensures scopes { OnOk result (scope_of scopes.new ≡ scope_of scopes.old) }
{
    one(
        lowering,
        builder,
        scopes,
        around,
        part,
        Ending::One(Op::Query),
    )
}

/// `E + F`, `E - F`, `E * F`; by `/` there is no code but in `Floor` and `Ceil`.
pub fn arithmetic<
    'a,
    F: Fn(
        &'a Tables<'a>,
        u32,
        &mut Builder,
        &mut Scopes<'a>,
        Around,
        &'a Expr,
    ) -> Result<(), Memory>,
>(
    lowering: &Lowering<'a, F>,
    builder: &mut Builder,
    scopes: &mut Scopes<'a>,
    around: Around,
    node: u32,
    place: Place,
    operator: Operator,
    parts: &'a Two,
) -> Result<(), Memory>
    requires nests { Lowers lowering.now.depth (F.pre lowering.now.nested)
        (F.post lowering.now.nested) }
    ensures code { OnOk result (built builder.new ≡ made (arithmetic_code
        lowering.now.tables.now.program.now
        operator (two_of parts.now) node place (scope_of scopes.old) around) (built builder.old)) }
    ensures scopes { OnOk result (scope_of scopes.new ≡ scope_of scopes.old) }
{
    let ending = computing(operator, place, is_array(lowering.tables.program, node));
    two(lowering, builder, scopes, around, parts, ending)
}

/// `E = F`, `E <> F`, `E < F`, `E <= F`, `E > F`, `E >= F`
pub fn compare<
    'a,
    F: Fn(
        &'a Tables<'a>,
        u32,
        &mut Builder,
        &mut Scopes<'a>,
        Around,
        &'a Expr,
    ) -> Result<(), Memory>,
>(
    lowering: &Lowering<'a, F>,
    builder: &mut Builder,
    scopes: &mut Scopes<'a>,
    around: Around,
    place: Place,
    operator: Comparison,
    parts: &'a Two,
) -> Result<(), Memory>
    requires nests { Lowers lowering.now.depth (F.pre lowering.now.nested)
        (F.post lowering.now.nested) }
    ensures code { OnOk result (built builder.new ≡ made (form_code
        lowering.now.tables.now.program.now
        (t.Shape.compared operator (two_of parts.now).0 (two_of parts.now).1) 0 place (scope_of
        scopes.old) around) (built builder.old)) }
    ensures scopes { OnOk result (scope_of scopes.new ≡ scope_of scopes.old) }
{
    two(
        lowering,
        builder,
        scopes,
        around,
        parts,
        Ending::One(comparing(operator)),
    )
}
