//! Forms whose parts are arms: `branch`, `sync`, `race` and `rush`.

ghost use Rattle.std.specs.Prelude.{◌≡◌, suc, map, OnOk, IfOk};
ghost use Rattle.verse_tree.specs.View.{tree_of, trees};
ghost use Rattle.verse_tree.specs.Tree as t;
ghost use Rattle.lower_expr.specs.Building.{built, made, ended_here};
ghost use Rattle.lower_expr.specs.Locals.{scope_of};
ghost use Rattle.lower_parts.specs.Parts.{form_code, Lowers, no_place};
ghost use Rattle.lower_calls.specs.Parts.{group_code, arm_code, arms_lowered};

use lower_code::arounds::Around;
use lower_declared::numbers::number_of;
use lower_expr::builder::Builder;
use lower_expr::scopes::Scopes;
use lower_items::tables::Tables;
use lower_lookup::statements::how_many;
use lower_parts::lowering::Lowering;
use lower_task::groups::{
    Kind, arm_begin, arm_end, branch_begin, branch_end, group_begin, group_end,
};
use verse_base::places::Place;
use verse_base::refusals::Memory;
use verse_tree::exprs::Expr;

/// `branch E`
#[tactic(auto, using(lower_task::proofs::Arms::branch_law))]
pub fn branch<
    'a,
    F: Fn(
        &'a Tables<'a>,
        u32,
        &mut Builder,
        &mut Scopes<'a>,
        Around,
        &'a Expr,
    ) -> Result<(), Memory>,
>(
    lowering: &Lowering<'a, F>,
    builder: &mut Builder,
    scopes: &mut Scopes<'a>,
    around: Around,
    part: &'a Expr,
) -> Result<(), Memory>
    requires nests { Lowers lowering.now.depth (F.pre lowering.now.nested)
        (F.post lowering.now.nested) }
    ensures code { OnOk result (built builder.new ≡
        made (form_code lowering.now.tables.now.program.now
        (t.Shape.branch (tree_of part.now)) 0 no_place
        (scope_of scopes.old) around) (built builder.old)) }
    ensures scopes { OnOk result (scope_of scopes.new ≡ scope_of scopes.old) }
{
    let begun = branch_begin(builder)?;
    lowering.part(builder, scopes, Around::fresh(), part)?;
    branch_end(builder, begun)
}

#[tactic(auto, using(lower_expr::proofs::Laws::made_then, lower_expr::proofs::Laws::made_one))]
fn arm<
    'a,
    F: Fn(
        &'a Tables<'a>,
        u32,
        &mut Builder,
        &mut Scopes<'a>,
        Around,
        &'a Expr,
    ) -> Result<(), Memory>,
>(
    lowering: &Lowering<'a, F>,
    builder: &mut Builder,
    scopes: &mut Scopes<'a>,
    at: u32,
    part: &'a Expr,
) -> Result<u32, Memory>
    requires nests { Lowers lowering.now.depth (F.pre lowering.now.nested)
        (F.post lowering.now.nested) }
    ensures next { IfOk result (λ n. n ≡ suc at) }
    ensures code { OnOk result (built builder.new ≡
        made (arm_code lowering.now.tables.now.program.now
        (scope_of scopes.old) (tree_of part.now)) (ended_here at (built builder.old))) }
    ensures scopes { OnOk result (scope_of scopes.new ≡ scope_of scopes.old) }
{
    let behind = arm_begin(builder, at)?;
    lowering.part(builder, scopes, Around::fresh(), part)?;
    arm_end(builder)?;
    Ok(behind)
}

fn arms<
    'a,
    F: Fn(
        &'a Tables<'a>,
        u32,
        &mut Builder,
        &mut Scopes<'a>,
        Around,
        &'a Expr,
    ) -> Result<(), Memory>,
>(
    lowering: &Lowering<'a, F>,
    builder: &mut Builder,
    scopes: &mut Scopes<'a>,
    first: u32,
    parts: &'a [Expr],
) -> Result<(), Memory>
    requires nests { Lowers lowering.now.depth (F.pre lowering.now.nested)
        (F.post lowering.now.nested) }
    ensures code { OnOk result (built builder.new ≡ arms_lowered lowering.now.tables.now.program.now
        (scope_of scopes.old) (trees (map tree_of parts.now)) first (built builder.old)) }
    ensures scopes { OnOk result (scope_of scopes.new ≡ scope_of scopes.old) }
{
    let mut at = first;
    'parts: for part in parts {
        at = arm(lowering, builder, scopes, at, part)?;
    }
    Ok(())
}

/// `sync`, `race` or `rush`
pub fn group<
    'a,
    F: Fn(
        &'a Tables<'a>,
        u32,
        &mut Builder,
        &mut Scopes<'a>,
        Around,
        &'a Expr,
    ) -> Result<(), Memory>,
>(
    lowering: &Lowering<'a, F>,
    builder: &mut Builder,
    scopes: &mut Scopes<'a>,
    kind: Kind,
    place: Place,
    parts: &'a [Expr],
) -> Result<(), Memory>
    requires nests { Lowers lowering.now.depth (F.pre lowering.now.nested)
        (F.post lowering.now.nested) }
    ensures code { OnOk result (built builder.new ≡
        made (group_code lowering.now.tables.now.program.now
        kind place (trees (map tree_of parts.now)) (scope_of scopes.old)) (built builder.old)) }
    ensures scopes { OnOk result (scope_of scopes.new ≡ scope_of scopes.old) }
{
    let count = number_of(how_many(parts))?;
    let mark = group_begin(builder, kind, count, place)?;
    arms(lowering, builder, scopes, mark.arm, parts)?;
    group_end(builder, mark)?;
    Ok(())
}
