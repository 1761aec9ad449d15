//! `case` and its arms.

ghost use Rattle.std.specs.Prelude.{◌≡◌, map, length, Some, OnOk, IfOk};
ghost use Rattle.verse_tree.specs.Tree as t;
ghost use Rattle.verse_tree.specs.View.{tree_of, two_of, cases_of, trees};
ghost use Rattle.verse_code.specs.declared.operations.Op.TheVariants as o;
ghost use Rattle.lower_expr.specs.Building.{built, made, pushed};
ghost use Rattle.lower_expr.specs.Locals.{scope_of};
ghost use Rattle.lower_fail.specs.Attempts.{other_begun, all_ended};
ghost use Rattle.lower_parts.specs.Parts.{tree_code, form_code, Lowers, no_place};
ghost use Rattle.lower_blocks.specs.Arms.{ArmLeads, arm_parts, arm_code, arms_code};
ghost use Rattle.lower_blocks.specs.Arms.{compared_arm, comparison};

use crate::patterns::{is_any, parts_of_arm, push_pattern};
use lower_code::arounds::Around;
use lower_expr::builder::Builder;
use lower_expr::scopes::{Scopes, Slot};
use lower_fail::attempts::{any_end, if_else, same_begin};
use lower_fail::ends::jumps_end;
use lower_items::tables::Tables;
use lower_lookup::statements::none_left;
use lower_parts::lowering::Lowering;
use lower_parts::parts::{arms, left, right, subject};
use std::alloc::Global;
use verse_base::refusals::Memory;
use verse_tree::exprs::{Cases, Expr, Two};

/// An arm that is taken without a test, with others behind it; the index of the jump over them.
fn any_arm<
    'a,
    F: Fn(
        &'a Tables<'a>,
        u32,
        &mut Builder,
        &mut Scopes<'a>,
        Around,
        &'a Expr,
    ) -> Result<(), Memory>,
>(
    lowering: &Lowering<'a, F>,
    builder: &mut Builder,
    scopes: &mut Scopes<'a>,
    around: Around,
    part: &'a Expr,
) -> Result<u32, Memory>
    requires nests { Lowers lowering.now.depth (F.pre lowering.now.nested)
        (F.post lowering.now.nested) }
    ensures jump { IfOk result (λ n. n ≡ length (made (tree_code
        lowering.now.tables.now.program.now (tree_of part.now) (scope_of scopes.old) around)
        (built builder.old)).ops) }
    ensures code { OnOk result (built builder.new ≡ pushed (o.Jump 0) (made (tree_code
        lowering.now.tables.now.program.now (tree_of part.now) (scope_of scopes.old) around)
        (built builder.old))) }
    ensures scopes { OnOk result (scope_of scopes.new ≡ scope_of scopes.old) }
{
    lowering.part(builder, scopes, around, part)?;
    any_end(builder)
}

/// An arm that is compared with the subject in a local; the index of the jump over those behind it.
fn same_arm<
    'a,
    F: Fn(
        &'a Tables<'a>,
        u32,
        &mut Builder,
        &mut Scopes<'a>,
        Around,
        &'a Expr,
    ) -> Result<(), Memory>,
>(
    lowering: &Lowering<'a, F>,
    builder: &mut Builder,
    scopes: &mut Scopes<'a>,
    around: Around,
    local: u32,
    two: &'a Two,
) -> Result<u32, Memory>
    requires nests { Lowers lowering.now.depth (F.pre lowering.now.nested)
        (F.post lowering.now.nested) }
    ensures jump { IfOk result (λ n. n ≡ length (compared_arm
        lowering.now.tables.now.program.now (two_of two.now).0 local (tree_code
        lowering.now.tables.now.program.now (two_of two.now).1 (scope_of scopes.old) around)
        (built builder.old)).ops) }
    ensures code { OnOk result (built builder.new ≡ other_begun (comparison
        lowering.now.tables.now.program.now (two_of two.now).0 local (built builder.old))
        (compared_arm lowering.now.tables.now.program.now (two_of two.now).0 local (tree_code
        lowering.now.tables.now.program.now (two_of two.now).1 (scope_of scopes.old) around)
        (built builder.old))) }
    ensures scopes { OnOk result (scope_of scopes.new ≡ scope_of scopes.old) }
{
    push_pattern(lowering.tables, builder, left(two))?;
    let test = same_begin(builder, local)?;
    lowering.part(builder, scopes, around, right(two))?;
    if_else(builder, test)
}

/// An arm by its parts; whether the code goes on behind it.
fn whole_arm<
    'a,
    F: Fn(
        &'a Tables<'a>,
        u32,
        &mut Builder,
        &mut Scopes<'a>,
        Around,
        &'a Expr,
    ) -> Result<(), Memory>,
>(
    lowering: &Lowering<'a, F>,
    builder: &mut Builder,
    scopes: &mut Scopes<'a>,
    around: Around,
    local: u32,
    jumps: &mut Vec<u32>,
    two: &'a Two,
    last: bool,
) -> Result<bool, Memory>
    requires nests { Lowers lowering.now.depth (F.pre lowering.now.nested)
        (F.post lowering.now.nested) }
    ensures code { IfOk result (λ goes_on. ArmLeads (arm_code
        lowering.now.tables.now.program.now (Some (two_of two.now)) local last (scope_of
        scopes.old) around) goes_on jumps.old.items jumps.new.items (built builder.old) (built
        builder.new)) }
    ensures scopes { OnOk result (scope_of scopes.new ≡ scope_of scopes.old) }
{
    if last {
        lowering.part(builder, scopes, around, right(two))?;
        Ok(false)
    } else if is_any(lowering.tables, left(two)) {
        let jump = any_arm(lowering, builder, scopes, around, right(two))?;
        jumps.push(jump)?;
        Ok(true)
    } else {
        let jump = same_arm(lowering, builder, scopes, around, local, two)?;
        jumps.push(jump)?;
        Ok(true)
    }
}

/// An arm; whether the code goes on behind it.
fn arm<
    'a,
    F: Fn(
        &'a Tables<'a>,
        u32,
        &mut Builder,
        &mut Scopes<'a>,
        Around,
        &'a Expr,
    ) -> Result<(), Memory>,
>(
    lowering: &Lowering<'a, F>,
    builder: &mut Builder,
    scopes: &mut Scopes<'a>,
    around: Around,
    local: u32,
    jumps: &mut Vec<u32>,
    part: &'a Expr,
    last: bool,
) -> Result<bool, Memory>
    requires nests { Lowers lowering.now.depth (F.pre lowering.now.nested)
        (F.post lowering.now.nested) }
    ensures code { IfOk result (λ goes_on. ArmLeads (arm_code
        lowering.now.tables.now.program.now (arm_parts (tree_of part.now)) local last (scope_of
        scopes.old) around) goes_on jumps.old.items jumps.new.items (built builder.old) (built
        builder.new)) }
    ensures scopes { OnOk result (scope_of scopes.new ≡ scope_of scopes.old) }
{
    match parts_of_arm(part) {
        None => {
            builder.stuck()?;
            Ok(false)
        }
        Some(two) => {
            let goes_on = whole_arm(lowering, builder, scopes, around, local, jumps, two, last)?;
            Ok(goes_on)
        }
    }
}

/// The arms of a `case` whose subject is in a local, with their jumps to its end.
fn open_arms<
    'a,
    F: Fn(
        &'a Tables<'a>,
        u32,
        &mut Builder,
        &mut Scopes<'a>,
        Around,
        &'a Expr,
    ) -> Result<(), Memory>,
>(
    lowering: &Lowering<'a, F>,
    builder: &mut Builder,
    scopes: &mut Scopes<'a>,
    around: Around,
    local: u32,
    jumps: &mut Vec<u32>,
    parts: &'a [Expr],
) -> Result<(), Memory>
    requires nests { Lowers lowering.now.depth (F.pre lowering.now.nested)
        (F.post lowering.now.nested) }
    ensures code { OnOk result (all_ended jumps.new.items (built builder.new) ≡ all_ended
        jumps.old.items (made (arms_code lowering.now.tables.now.program.now (trees (map tree_of
        parts.now)) local (scope_of scopes.old) around) (built builder.old))) }
    ensures scopes { OnOk result (scope_of scopes.new ≡ scope_of scopes.old) }
{
    let mut rest = parts;
    'arms: while let Some((first, behind)) = rest.split_first() {
        let last = none_left(behind);
        let goes_on = arm(lowering, builder, scopes, around, local, jumps, first, last)?;
        if !goes_on {
            return Ok(());
        }
        rest = behind;
    }
    builder.stuck()?;
    Ok(())
}

/// The arms of a `case` whose subject is in a local.
fn all_arms<
    'a,
    F: Fn(
        &'a Tables<'a>,
        u32,
        &mut Builder,
        &mut Scopes<'a>,
        Around,
        &'a Expr,
    ) -> Result<(), Memory>,
>(
    alloc: Global,
    lowering: &Lowering<'a, F>,
    builder: &mut Builder,
    scopes: &mut Scopes<'a>,
    around: Around,
    local: u32,
    parts: &'a [Expr],
) -> Result<(), Memory>
    requires nests { Lowers lowering.now.depth (F.pre lowering.now.nested)
        (F.post lowering.now.nested) }
    ensures code { OnOk result (built builder.new ≡ made (arms_code
        lowering.now.tables.now.program.now (trees (map tree_of parts.now)) local (scope_of
        scopes.old) around) (built builder.old)) }
    ensures scopes { OnOk result (scope_of scopes.new ≡ scope_of scopes.old) }
{
    let mut jumps = Vec::new(alloc);
    open_arms(lowering, builder, scopes, around, local, &mut jumps, parts)?;
    jumps_end(builder, &jumps)?;
    Ok(())
}

/// `case`
pub fn case<
    'a,
    F: Fn(
        &'a Tables<'a>,
        u32,
        &mut Builder,
        &mut Scopes<'a>,
        Around,
        &'a Expr,
    ) -> Result<(), Memory>,
>(
    lowering: &Lowering<'a, F>,
    builder: &mut Builder,
    scopes: &mut Scopes<'a>,
    around: Around,
    cases: &'a Cases,
) -> Result<(), Memory>
    requires nests { Lowers lowering.now.depth (F.pre lowering.now.nested)
        (F.post lowering.now.nested) }
    ensures code { OnOk result (built builder.new ≡ made (form_code
        lowering.now.tables.now.program.now (t.Shape.cases (cases_of cases.now).0 (trees
        (cases_of cases.now).1)) 0 no_place (scope_of scopes.old) around) (built builder.old)) }
    ensures scopes { OnOk result (scope_of scopes.new ≡ scope_of scopes.old) }
{
    let local = scopes.count()?;
    lowering.part(builder, scopes, around, subject(cases))?;
    builder.put_away(local)?;
    scopes.add(Slot::Hidden)?;
    all_arms(
        lowering.tables.alloc,
        lowering,
        builder,
        scopes,
        around,
        local,
        arms(cases),
    )?;
    scopes.cut(local);
    Ok(())
}
