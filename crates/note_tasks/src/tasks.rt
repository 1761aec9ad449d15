//! Forms whose parts are arms: `branch`, `sync`, `race` and `rush`.

ghost use Rattle.std.specs.Prelude.{◌≡◌, map, OnOk};
ghost use Rattle.verse_tree.specs.View.{tree_of, trees};
ghost use Rattle.verse_tree.specs.Tree as t;
ghost use Rattle.note_states.specs.View.{standing_of};
ghost use Rattle.lower_expr.specs.Locals.{scope_of};
ghost use Rattle.note_stretches.specs.Noted.{noted, walked, resumed};
ghost use Rattle.note_parts.specs.Parts.{form_walk, Notes, no_place};
ghost use Rattle.note_tasks.specs.Groups.{arm_walk, arms_walk, group_walk};

use lower_code::arounds::Around;
use lower_declared::numbers;
use lower_expr::scopes::Scopes;
use lower_items::tables::Tables;
use lower_lookup::statements::how_many;
use note_parts::noter::{Noter, number_of};
use note_sorts::kinds::Kind;
use note_states::standing::Standing;
use note_stretches::forms::{attempt_end, branch_begin, group_begin};
use note_stretches::noting::Noting;
use verse_base::refusals::Memory;
use verse_tree::exprs::Expr;

/// `branch E`
#[tactic(auto, using(note_stretches::proofs::Laws::walked_then, note_stretches::proofs::Laws::walked_ahead))]
pub fn branch<
    'a,
    F: Fn(
        &'a Tables<'a>,
        u32,
        &mut Noting,
        &mut Scopes<'a>,
        Around,
        &'a Expr,
    ) -> Result<(), Memory>,
>(
    noter: &Noter<'a, F>,
    noting: &mut Noting,
    scopes: &mut Scopes<'a>,
    around: Around,
    node: u32,
    part: &'a Expr,
) -> Result<(), Memory>
    requires nests { Notes noter.now.depth (F.pre noter.now.nested)
        (F.post noter.now.nested) }
    ensures states { OnOk result (noted noting.new ≡ walked (form_walk
        noter.now.tables.now.program.now (t.Shape.branch (tree_of part.now)) node no_place
        (scope_of scopes.old) around) (noted noting.old)) }
    ensures scopes { OnOk result (scope_of scopes.new ≡ scope_of scopes.old) }
{
    let program = noter.tables.program;
    let kind = Kind::Node(number_of(part));
    let behind = branch_begin(noting, program, kind, Kind::Node(node))?;
    noter.part(noting, scopes, Around::fresh(), part)?;
    noting.ends()?;
    attempt_end(noting, behind);
    Ok(())
}

/// An arm, which begins where this stands.
fn arm<
    'a,
    F: Fn(
        &'a Tables<'a>,
        u32,
        &mut Noting,
        &mut Scopes<'a>,
        Around,
        &'a Expr,
    ) -> Result<(), Memory>,
>(
    noter: &Noter<'a, F>,
    noting: &mut Noting,
    scopes: &mut Scopes<'a>,
    before: Standing,
    part: &'a Expr,
) -> Result<(), Memory>
    requires nests { Notes noter.now.depth (F.pre noter.now.nested)
        (F.post noter.now.nested) }
    ensures states { OnOk result (noted noting.new ≡ walked (arm_walk
        noter.now.tables.now.program.now (scope_of scopes.old) (tree_of part.now))
        (resumed (standing_of before) (noted noting.old))) }
    ensures scopes { OnOk result (scope_of scopes.new ≡ scope_of scopes.old) }
{
    attempt_end(noting, before);
    noting.in_arm(noter.tables.program, Kind::Node(number_of(part)))?;
    noter.part(noting, scopes, Around::fresh(), part)?;
    noting.ends()?;
    Ok(())
}

/// The arms of a group, which begin where this stands.
fn arms<
    'a,
    F: Fn(
        &'a Tables<'a>,
        u32,
        &mut Noting,
        &mut Scopes<'a>,
        Around,
        &'a Expr,
    ) -> Result<(), Memory>,
>(
    noter: &Noter<'a, F>,
    noting: &mut Noting,
    scopes: &mut Scopes<'a>,
    before: &Standing,
    parts: &'a [Expr],
) -> Result<(), Memory>
    requires nests { Notes noter.now.depth (F.pre noter.now.nested)
        (F.post noter.now.nested) }
    ensures states { OnOk result (resumed (standing_of before.now) (noted noting.new) ≡
        walked (arms_walk
        noter.now.tables.now.program.now (trees (map tree_of parts.now)) (scope_of scopes.old))
        (resumed (standing_of before.now) (noted noting.old))) }
    ensures scopes { OnOk result (scope_of scopes.new ≡ scope_of scopes.old) }
{
    'parts: for part in parts {
        arm(noter, noting, scopes, before.copy()?, part)?;
    }
    Ok(())
}

/// `sync`, `race` or `rush`
pub fn group<
    'a,
    F: Fn(
        &'a Tables<'a>,
        u32,
        &mut Noting,
        &mut Scopes<'a>,
        Around,
        &'a Expr,
    ) -> Result<(), Memory>,
>(
    noter: &Noter<'a, F>,
    noting: &mut Noting,
    scopes: &mut Scopes<'a>,
    node: u32,
    parts: &'a [Expr],
) -> Result<(), Memory>
    requires nests { Notes noter.now.depth (F.pre noter.now.nested)
        (F.post noter.now.nested) }
    ensures states { OnOk result (noted noting.new ≡ walked (group_walk
        noter.now.tables.now.program.now
        node (trees (map tree_of parts.now)) (scope_of scopes.old)) (noted noting.old)) }
    ensures scopes { OnOk result (scope_of scopes.new ≡ scope_of scopes.old) }
{
    let count = numbers::number_of(how_many(parts))?;
    let before = noting.standing()?;
    let behind = group_begin(noting, noter.tables.program, count, Kind::Node(node))?;
    arms(noter, noting, scopes, &before, parts)?;
    attempt_end(noting, behind);
    Ok(())
}
