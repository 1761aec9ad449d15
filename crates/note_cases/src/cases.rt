//! `case` and its arms.

ghost use Rattle.std.specs.Prelude.{◌≡◌, map, Some, OnOk, IfOk};
ghost use Rattle.verse_tree.specs.Tree as t;
ghost use Rattle.verse_tree.specs.View.{tree_of, two_of, cases_of, trees};
ghost use Rattle.lower_expr.specs.Locals.{scope_of};
ghost use Rattle.note_states.specs.View.{standing_of};
ghost use Rattle.note_stretches.specs.Noted.{noted, walked, marked, stopped};
ghost use Rattle.note_stretches.specs.Forms.{other_begun};
ghost use Rattle.note_parts.specs.Parts.{tree_walk, form_walk, Notes, no_place};
ghost use Rattle.lower_blocks.specs.Arms.{arm_parts};
ghost use Rattle.note_cases.specs.Ends.{end_of, all_ended};
ghost use Rattle.note_cases.specs.Arms.{ArmLeads, arm_walk, arms_walk, compared_arm, other_at};

use crate::ends::{End, arms_end};
use crate::patterns::{is_any, parts_of_arm, push_pattern};
use lower_code::arounds::Around;
use lower_expr::scopes::{Scopes, Slot};
use lower_items::tables::Tables;
use lower_lookup::statements::none_left;
use lower_parts::parts::{arms, left, right, subject};
use note_parts::noter::{Noter, number_of};
use note_sorts::kinds::Kind;
use note_states::standing::Standing;
use note_stretches::forms::{other_begin, same_begin};
use note_stretches::noting::Noting;
use std::alloc::Global;
use verse_base::refusals::Memory;
use verse_tree::exprs::{Cases, Expr, Two};

/// An arm that is taken without a test, with others behind it; what stands behind it.
#[tactic(auto, using(note_stretches::proofs::Laws::walked_ends))]
fn any_arm<
    'a,
    F: Fn(
        &'a Tables<'a>,
        u32,
        &mut Noting,
        &mut Scopes<'a>,
        Around,
        &'a Expr,
    ) -> Result<(), Memory>,
>(
    noter: &Noter<'a, F>,
    noting: &mut Noting,
    scopes: &mut Scopes<'a>,
    around: Around,
    part: &'a Expr,
) -> Result<Standing, Memory>
    requires nests { Notes noter.now.depth (F.pre noter.now.nested)
        (F.post noter.now.nested) }
    ensures behind { IfOk result (λ x. standing_of x ≡ (walked (tree_walk
        noter.now.tables.now.program.now (tree_of part.now) (scope_of scopes.old) around)
        (noted noting.old)).exit) }
    ensures states { OnOk result (noted noting.new ≡ stopped (marked (walked (tree_walk
        noter.now.tables.now.program.now (tree_of part.now) (scope_of scopes.old) around)
        (noted noting.old)))) }
    ensures scopes { OnOk result (scope_of scopes.new ≡ scope_of scopes.old) }
{
    noter.part(noting, scopes, around, part)?;
    let behind = noting.standing()?;
    noting.ends()?;
    Ok(behind)
}

/// An arm that is compared with the subject in a local; what stands behind it.
fn same_arm<
    'a,
    F: Fn(
        &'a Tables<'a>,
        u32,
        &mut Noting,
        &mut Scopes<'a>,
        Around,
        &'a Expr,
    ) -> Result<(), Memory>,
>(
    noter: &Noter<'a, F>,
    noting: &mut Noting,
    scopes: &mut Scopes<'a>,
    around: Around,
    local: u32,
    two: &'a Two,
) -> Result<Standing, Memory>
    requires nests { Notes noter.now.depth (F.pre noter.now.nested)
        (F.post noter.now.nested) }
    ensures behind { IfOk result (λ x. standing_of x ≡ (compared_arm
        noter.now.tables.now.program.now (two_of two.now).0 local (tree_walk
        noter.now.tables.now.program.now (two_of two.now).1 (scope_of scopes.old) around)
        (noted noting.old)).exit) }
    ensures states { OnOk result (noted noting.new ≡ other_begun (other_at
        noter.now.tables.now.program.now (two_of two.now).0 local (noted noting.old))
        (compared_arm
        noter.now.tables.now.program.now (two_of two.now).0 local (tree_walk
        noter.now.tables.now.program.now (two_of two.now).1 (scope_of scopes.old) around)
        (noted noting.old))) }
    ensures scopes { OnOk result (scope_of scopes.new ≡ scope_of scopes.old) }
{
    push_pattern(noter.tables, noting, left(two))?;
    noting.get(local)?;
    let other = same_begin(noting)?;
    noter.part(noting, scopes, around, right(two))?;
    other_begin(noting, other)
}

/// An arm by its parts; whether something goes on behind it.
fn whole_arm<
    'a,
    F: Fn(
        &'a Tables<'a>,
        u32,
        &mut Noting,
        &mut Scopes<'a>,
        Around,
        &'a Expr,
    ) -> Result<(), Memory>,
>(
    noter: &Noter<'a, F>,
    noting: &mut Noting,
    scopes: &mut Scopes<'a>,
    around: Around,
    local: u32,
    ends: &mut Vec<End>,
    two: &'a Two,
    last: bool,
) -> Result<bool, Memory>
    requires nests { Notes noter.now.depth (F.pre noter.now.nested)
        (F.post noter.now.nested) }
    ensures states { IfOk result (λ goes_on. ArmLeads (arm_walk
        noter.now.tables.now.program.now (Some (two_of two.now)) local last (scope_of
        scopes.old) around) goes_on (map end_of ends.old.items) (map end_of ends.new.items)
        (noted noting.old) (noted noting.new)) }
    ensures scopes { OnOk result (scope_of scopes.new ≡ scope_of scopes.old) }
{
    if last {
        noter.part(noting, scopes, around, right(two))?;
        Ok(false)
    } else if is_any(noter.tables, left(two)) {
        let behind = any_arm(noter, noting, scopes, around, right(two))?;
        ends.push(End {
            behind,
            is_only: true,
        })?;
        Ok(true)
    } else {
        let behind = same_arm(noter, noting, scopes, around, local, two)?;
        ends.push(End {
            behind,
            is_only: false,
        })?;
        Ok(true)
    }
}

/// An arm; whether something goes on behind it.
fn arm<
    'a,
    F: Fn(
        &'a Tables<'a>,
        u32,
        &mut Noting,
        &mut Scopes<'a>,
        Around,
        &'a Expr,
    ) -> Result<(), Memory>,
>(
    noter: &Noter<'a, F>,
    noting: &mut Noting,
    scopes: &mut Scopes<'a>,
    around: Around,
    local: u32,
    ends: &mut Vec<End>,
    part: &'a Expr,
    last: bool,
) -> Result<bool, Memory>
    requires nests { Notes noter.now.depth (F.pre noter.now.nested)
        (F.post noter.now.nested) }
    ensures states { IfOk result (λ goes_on. ArmLeads (arm_walk
        noter.now.tables.now.program.now (arm_parts (tree_of part.now)) local last (scope_of
        scopes.old) around) goes_on (map end_of ends.old.items) (map end_of ends.new.items)
        (noted noting.old) (noted noting.new)) }
    ensures scopes { OnOk result (scope_of scopes.new ≡ scope_of scopes.old) }
{
    match parts_of_arm(part) {
        None => {
            noting.ends()?;
            Ok(false)
        }
        Some(two) => {
            let goes_on = whole_arm(noter, noting, scopes, around, local, ends, two, last)?;
            Ok(goes_on)
        }
    }
}

/// The arms of a `case` whose subject is in a local, with what stands behind them.
fn open_arms<
    'a,
    F: Fn(
        &'a Tables<'a>,
        u32,
        &mut Noting,
        &mut Scopes<'a>,
        Around,
        &'a Expr,
    ) -> Result<(), Memory>,
>(
    noter: &Noter<'a, F>,
    noting: &mut Noting,
    scopes: &mut Scopes<'a>,
    around: Around,
    local: u32,
    ends: &mut Vec<End>,
    parts: &'a [Expr],
) -> Result<(), Memory>
    requires nests { Notes noter.now.depth (F.pre noter.now.nested)
        (F.post noter.now.nested) }
    ensures states { OnOk result (all_ended (map end_of ends.new.items) (noted noting.new) ≡
        all_ended (map end_of ends.old.items) (walked (arms_walk noter.now.tables.now.program.now
        (trees (map tree_of
        parts.now)) local (scope_of scopes.old) around) (noted noting.old))) }
    ensures scopes { OnOk result (scope_of scopes.new ≡ scope_of scopes.old) }
{
    let mut rest = parts;
    'arms: while let Some((first, behind)) = rest.split_first() {
        let last = none_left(behind);
        let goes_on = arm(noter, noting, scopes, around, local, ends, first, last)?;
        if !goes_on {
            return Ok(());
        }
        rest = behind;
    }
    noting.ends()?;
    Ok(())
}

/// The arms of a `case` whose subject is in a local.
fn all_arms<
    'a,
    F: Fn(
        &'a Tables<'a>,
        u32,
        &mut Noting,
        &mut Scopes<'a>,
        Around,
        &'a Expr,
    ) -> Result<(), Memory>,
>(
    alloc: Global,
    noter: &Noter<'a, F>,
    noting: &mut Noting,
    scopes: &mut Scopes<'a>,
    around: Around,
    local: u32,
    parts: &'a [Expr],
) -> Result<(), Memory>
    requires nests { Notes noter.now.depth (F.pre noter.now.nested)
        (F.post noter.now.nested) }
    ensures states { OnOk result (noted noting.new ≡ walked (arms_walk
        noter.now.tables.now.program.now (trees (map tree_of
        parts.now)) local (scope_of scopes.old) around) (noted noting.old)) }
    ensures scopes { OnOk result (scope_of scopes.new ≡ scope_of scopes.old) }
{
    let mut ends = Vec::new(alloc);
    open_arms(noter, noting, scopes, around, local, &mut ends, parts)?;
    arms_end(noting, ends);
    Ok(())
}

/// `case`
pub fn case<
    'a,
    F: Fn(
        &'a Tables<'a>,
        u32,
        &mut Noting,
        &mut Scopes<'a>,
        Around,
        &'a Expr,
    ) -> Result<(), Memory>,
>(
    noter: &Noter<'a, F>,
    noting: &mut Noting,
    scopes: &mut Scopes<'a>,
    around: Around,
    cases: &'a Cases,
) -> Result<(), Memory>
    requires nests { Notes noter.now.depth (F.pre noter.now.nested)
        (F.post noter.now.nested) }
    ensures states { OnOk result (noted noting.new ≡ walked (form_walk
        noter.now.tables.now.program.now (t.Shape.cases (cases_of cases.now).0 (trees
        (cases_of cases.now).1)) 0 no_place
        (scope_of scopes.old) around) (noted noting.old)) }
    ensures scopes { OnOk result (scope_of scopes.new ≡ scope_of scopes.old) }
{
    let local = scopes.count()?;
    let part = subject(cases);
    noter.part(noting, scopes, around, part)?;
    noting.put(noter.tables.program, local, Kind::Node(number_of(part)))?;
    scopes.add(Slot::Hidden)?;
    all_arms(
        noter.tables.alloc,
        noter,
        noting,
        scopes,
        around,
        local,
        arms(cases),
    )?;
    scopes.cut(local);
    Ok(())
}
