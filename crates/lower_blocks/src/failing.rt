//! Failure contexts.

ghost use Rattle.std.specs.Prelude.{◌≡◌, map, length, OnOk};
ghost use Rattle.verse_tree.specs.Tree as t;
ghost use Rattle.verse_tree.specs.View.{tree_of, two_of, if_of, trees, if_shape};
ghost use Rattle.verse_tree.specs.declared.exprs.Operator.TheVariants as op;
ghost use Rattle.lower_code.specs.Arounds as a;
ghost use Rattle.lower_code.specs.Lowering.{scope_behind};
ghost use Rattle.lower_fail.specs.Attempts.{held, other_begun};
ghost use Rattle.lower_expr.specs.Building.{built, made, ended_here};
ghost use Rattle.lower_expr.specs.Locals.{scope_of};
ghost use Rattle.lower_parts.specs.Parts.{tree_code, form_code, Lowers, no_place};
ghost use Rattle.lower_blocks.specs.Codes.{statements_code};

use crate::statements::{own_statements, statements};
use lower_code::arounds::Around;
use lower_expr::builder::Builder;
use lower_expr::scopes::Scopes;
use lower_fail::attempts::{
    and_mid, if_alone_end, if_else, if_then, jump_end, logic_end, not_end, option_end, or_mid,
    try_begin,
};
use lower_items::tables::Tables;
use lower_parts::lowering::Lowering;
use lower_parts::parts::{conditions, left, otherwise, right, taken};
use verse_base::places::Place;
use verse_base::refusals::Memory;
use verse_tree::exprs::{Expr, IfParts, Two};

/// `not E`
pub fn negation<
    'a,
    F: Fn(
        &'a Tables<'a>,
        u32,
        &mut Builder,
        &mut Scopes<'a>,
        Around,
        &'a Expr,
    ) -> Result<(), Memory>,
>(
    lowering: &Lowering<'a, F>,
    builder: &mut Builder,
    scopes: &mut Scopes<'a>,
    around: Around,
    part: &'a Expr,
) -> Result<(), Memory>
    requires nests { Lowers lowering.now.depth (F.pre lowering.now.nested)
        (F.post lowering.now.nested) }
    ensures code { OnOk result (built builder.new ≡ made (form_code
        lowering.now.tables.now.program.now (t.Shape.negation (tree_of part.now)) 0 no_place
        (scope_of scopes.old) around) (built builder.old)) }
    ensures scopes { OnOk result (scope_of scopes.new ≡ scope_of scopes.old) }
{
    let begun = try_begin(builder)?;
    lowering.part(builder, scopes, around.enclosed(), part)?;
    not_end(builder, begun)?;
    Ok(())
}

/// `E or F`
pub fn or<
    'a,
    F: Fn(
        &'a Tables<'a>,
        u32,
        &mut Builder,
        &mut Scopes<'a>,
        Around,
        &'a Expr,
    ) -> Result<(), Memory>,
>(
    lowering: &Lowering<'a, F>,
    builder: &mut Builder,
    scopes: &mut Scopes<'a>,
    around: Around,
    two: &'a Two,
) -> Result<(), Memory>
    requires nests { Lowers lowering.now.depth (F.pre lowering.now.nested)
        (F.post lowering.now.nested) }
    ensures code { OnOk result (built builder.new ≡ made (form_code
        lowering.now.tables.now.program.now (t.Shape.chained op.Or (two_of two.now).0 (two_of
        two.now).1) 0 no_place (scope_of scopes.old) around) (built builder.old)) }
    ensures scopes { OnOk result (scope_of scopes.new ≡ scope_of scopes.old) }
{
    let begun = try_begin(builder)?;
    lowering.part(builder, scopes, around.enclosed(), left(two))?;
    let jump = or_mid(builder, begun)?;
    lowering.part(builder, scopes, around, right(two))?;
    jump_end(builder, jump)?;
    Ok(())
}

/// `E and F`
pub fn and<
    'a,
    F: Fn(
        &'a Tables<'a>,
        u32,
        &mut Builder,
        &mut Scopes<'a>,
        Around,
        &'a Expr,
    ) -> Result<(), Memory>,
>(
    lowering: &Lowering<'a, F>,
    builder: &mut Builder,
    scopes: &mut Scopes<'a>,
    around: Around,
    two: &'a Two,
) -> Result<(), Memory>
    requires nests { Lowers lowering.now.depth (F.pre lowering.now.nested)
        (F.post lowering.now.nested) }
    ensures code { OnOk result (built builder.new ≡ made (form_code
        lowering.now.tables.now.program.now (t.Shape.chained op.And (two_of two.now).0 (two_of
        two.now).1) 0 no_place (scope_of scopes.old) around) (built builder.old)) }
    ensures scopes { OnOk result (scope_of scopes.new ≡ scope_of scopes.old) }
{
    lowering.part(builder, scopes, around, left(two))?;
    and_mid(builder)?;
    let behind = right(two);
    lowering.part(builder, scopes, around, behind)?;
    Ok(())
}

/// The conditions of an `if` and the part that is taken where they hold.
#[tactic(auto, using(crate::proofs::Behind::cut_behind))]
fn if_taken<
    'a,
    F: Fn(
        &'a Tables<'a>,
        u32,
        &mut Builder,
        &mut Scopes<'a>,
        Around,
        &'a Expr,
    ) -> Result<(), Memory>,
>(
    lowering: &Lowering<'a, F>,
    builder: &mut Builder,
    scopes: &mut Scopes<'a>,
    around: Around,
    parts: &'a IfParts,
) -> Result<(), Memory>
    requires nests { Lowers lowering.now.depth (F.pre lowering.now.nested)
        (F.post lowering.now.nested) }
    ensures code { OnOk result (built builder.new ≡ made (tree_code
        lowering.now.tables.now.program.now (if_of parts.now).taken (scope_behind (trees (if_of
        parts.now).conditions) (scope_of scopes.old)) around) (held (made (statements_code
        lowering.now.tables.now.program.now (trees (if_of parts.now).conditions) (scope_of
        scopes.old) (a.enclosed around)) (built builder.old)))) }
    ensures scopes { OnOk result (scope_of scopes.new ≡ scope_of scopes.old) }
{
    let count = scopes.count()?;
    statements(
        lowering,
        builder,
        scopes,
        around.enclosed(),
        conditions(parts),
    )?;
    if_then(builder)?;
    lowering.part(builder, scopes, around, taken(parts))?;
    scopes.cut(count);
    Ok(())
}

/// The other part of an `if` whose attempt has this index.
fn if_other<
    'a,
    F: Fn(
        &'a Tables<'a>,
        u32,
        &mut Builder,
        &mut Scopes<'a>,
        Around,
        &'a Expr,
    ) -> Result<(), Memory>,
>(
    lowering: &Lowering<'a, F>,
    builder: &mut Builder,
    scopes: &mut Scopes<'a>,
    around: Around,
    begun: u32,
    part: &'a Expr,
) -> Result<(), Memory>
    requires nests { Lowers lowering.now.depth (F.pre lowering.now.nested)
        (F.post lowering.now.nested) }
    ensures code { OnOk result (built builder.new ≡ ended_here (length (built builder.old).ops)
        (made (tree_code lowering.now.tables.now.program.now (tree_of part.now) (scope_of
        scopes.old) around) (other_begun begun (built builder.old)))) }
    ensures scopes { OnOk result (scope_of scopes.new ≡ scope_of scopes.old) }
{
    let jump = if_else(builder, begun)?;
    lowering.part(builder, scopes, around, part)?;
    jump_end(builder, jump)?;
    Ok(())
}

/// `if`, with or without `else`
pub fn if_form<
    'a,
    F: Fn(
        &'a Tables<'a>,
        u32,
        &mut Builder,
        &mut Scopes<'a>,
        Around,
        &'a Expr,
    ) -> Result<(), Memory>,
>(
    lowering: &Lowering<'a, F>,
    builder: &mut Builder,
    scopes: &mut Scopes<'a>,
    around: Around,
    parts: &'a IfParts,
) -> Result<(), Memory>
    requires nests { Lowers lowering.now.depth (F.pre lowering.now.nested)
        (F.post lowering.now.nested) }
    ensures code { OnOk result (built builder.new ≡ made (form_code
        lowering.now.tables.now.program.now (if_shape (trees (if_of parts.now).conditions)
        (if_of parts.now).taken (if_of parts.now).otherwise) 0 no_place (scope_of scopes.old)
        around) (built builder.old)) }
    ensures scopes { OnOk result (scope_of scopes.new ≡ scope_of scopes.old) }
{
    let begun = try_begin(builder)?;
    if_taken(lowering, builder, scopes, around, parts)?;
    match otherwise(parts) {
        None => if_alone_end(builder, begun)?,
        Some(part) => if_other(lowering, builder, scopes, around, begun, part)?,
    }
    Ok(())
}

/// `option{}`
pub fn option<
    'a,
    F: Fn(
        &'a Tables<'a>,
        u32,
        &mut Builder,
        &mut Scopes<'a>,
        Around,
        &'a Expr,
    ) -> Result<(), Memory>,
>(
    lowering: &Lowering<'a, F>,
    builder: &mut Builder,
    scopes: &mut Scopes<'a>,
    around: Around,
    place: Place,
    parts: &'a [Expr],
) -> Result<(), Memory>
    requires nests { Lowers lowering.now.depth (F.pre lowering.now.nested)
        (F.post lowering.now.nested) }
    ensures code { OnOk result (built builder.new ≡ made (form_code
        lowering.now.tables.now.program.now (t.Shape.option (trees (map tree_of parts.now))) 0
        place (scope_of scopes.old) around) (built builder.old)) }
    ensures scopes { OnOk result (scope_of scopes.new ≡ scope_of scopes.old) }
{
    let begun = try_begin(builder)?;
    own_statements(lowering, builder, scopes, around.enclosed(), parts)?;
    option_end(builder, begun, place)?;
    Ok(())
}

/// `logic{}`
pub fn logic<
    'a,
    F: Fn(
        &'a Tables<'a>,
        u32,
        &mut Builder,
        &mut Scopes<'a>,
        Around,
        &'a Expr,
    ) -> Result<(), Memory>,
>(
    lowering: &Lowering<'a, F>,
    builder: &mut Builder,
    scopes: &mut Scopes<'a>,
    around: Around,
    parts: &'a [Expr],
) -> Result<(), Memory>
    requires nests { Lowers lowering.now.depth (F.pre lowering.now.nested)
        (F.post lowering.now.nested) }
    ensures code { OnOk result (built builder.new ≡ made (form_code
        lowering.now.tables.now.program.now (t.Shape.logic (trees (map tree_of parts.now))) 0
        no_place (scope_of scopes.old) around) (built builder.old)) }
    ensures scopes { OnOk result (scope_of scopes.new ≡ scope_of scopes.old) }
{
    let begun = try_begin(builder)?;
    own_statements(lowering, builder, scopes, around.enclosed(), parts)?;
    logic_end(builder, begun)?;
    Ok(())
}
