//! Calls, indices, and calls that are spawned.

ghost use Rattle.std.specs.Prelude.{◌≡◌, map, OnOk, Some, None};
ghost use Rattle.verse_tree.specs.View.{tree_of, trees, applied_of};
ghost use Rattle.verse_tree.specs.Tree as t;
ghost use Rattle.verse_meaning.specs.Programs.{program_of};
ghost use Rattle.verse_meaning.specs.Residuals as form;
ghost use Rattle.verse_meaning.specs.Evaluating as e;
ghost use Rattle.note_stretches.specs.Noted.{noted, walked};
ghost use Rattle.lower_expr.specs.Locals.{scope_of};
ghost use Rattle.note_parts.specs.Parts.{form_walk, Notes, no_place};
ghost use Rattle.note_calls.specs.Calls as c;

use crate::actions::{alone, indexed, of_object, of_quotient, of_value};
use lower_calls::views::called_of;
use lower_code::arounds::Around;
use lower_expr::scopes::Scopes;
use lower_items::tables::Tables;
use lower_lookup::actions::{Action, picked};
use lower_lookup::callees::{Callee, callee_of, spawned_callee};
use note_parts::noter::Noter;
use note_stretches::noting::Noting;
use verse_base::places::Place;
use verse_base::refusals::Memory;
use verse_tree::exprs::{Applied, Expr};

fn called<
    'a,
    F: Fn(
        &'a Tables<'a>,
        u32,
        &mut Noting,
        &mut Scopes<'a>,
        Around,
        &'a Expr,
    ) -> Result<(), Memory>,
>(
    noter: &Noter<'a, F>,
    noting: &mut Noting,
    scopes: &mut Scopes<'a>,
    around: Around,
    place: Place,
    callee: &'a Expr,
    args: &'a [Expr],
) -> Result<(), Memory>
    requires nests { Notes noter.now.depth (F.pre noter.now.nested)
        (F.post noter.now.nested) }
    ensures states { OnOk result (noted noting.new ≡
        walked (form_walk noter.now.tables.now.program.now
        (t.Shape.call (tree_of callee.now) (trees (map tree_of args.now))) 0 place
        (scope_of scopes.old) around)
        (noted noting.old)) }
    ensures scopes { OnOk result (scope_of scopes.new ≡ scope_of scopes.old) }
{
    let found = callee_of(noter.tables.program, callee, picked(args), place);
    match found {
        Callee::Alone(action) => alone(noter, noting, scopes, around, action, args)?,
        Callee::OfObject(action) => {
            of_object(noter, noting, scopes, around, action, callee, args)?
        }
        Callee::OfValue(action) => of_value(noter, noting, scopes, around, action, callee)?,
        Callee::OfQuotient(action) => { of_quotient(noter, noting, scopes, around, action, args)? }
        Callee::None => noting.ends()?,
    }
    Ok(())
}

/// `E(F, G)`
pub fn call<
    'a,
    F: Fn(
        &'a Tables<'a>,
        u32,
        &mut Noting,
        &mut Scopes<'a>,
        Around,
        &'a Expr,
    ) -> Result<(), Memory>,
>(
    noter: &Noter<'a, F>,
    noting: &mut Noting,
    scopes: &mut Scopes<'a>,
    around: Around,
    place: Place,
    parts: &'a Applied,
) -> Result<(), Memory>
    requires nests { Notes noter.now.depth (F.pre noter.now.nested)
        (F.post noter.now.nested) }
    ensures states { OnOk result (noted noting.new ≡
        walked (form_walk noter.now.tables.now.program.now
        (t.Shape.call (applied_of parts.now).0 (trees (applied_of parts.now).1)) 0 place
        (scope_of scopes.old) around)
        (noted noting.old)) }
    ensures scopes { OnOk result (scope_of scopes.new ≡ scope_of scopes.old) }
{
    called(
        noter,
        noting,
        scopes,
        around,
        place,
        parts.callee.get(),
        parts.args.as_slice(),
    )?;
    Ok(())
}

fn read_at<
    'a,
    F: Fn(
        &'a Tables<'a>,
        u32,
        &mut Noting,
        &mut Scopes<'a>,
        Around,
        &'a Expr,
    ) -> Result<(), Memory>,
>(
    noter: &Noter<'a, F>,
    noting: &mut Noting,
    scopes: &mut Scopes<'a>,
    around: Around,
    place: Place,
    callee: &'a Expr,
    args: &'a [Expr],
) -> Result<(), Memory>
    requires nests { Notes noter.now.depth (F.pre noter.now.nested)
        (F.post noter.now.nested) }
    ensures states { OnOk result (noted noting.new ≡
        walked (form_walk noter.now.tables.now.program.now
        (t.Shape.index (tree_of callee.now) (trees (map tree_of args.now))) 0 place
        (scope_of scopes.old) around)
        (noted noting.old)) }
    ensures scopes { OnOk result (scope_of scopes.new ≡ scope_of scopes.old) }
{
    let found = callee_of(noter.tables.program, callee, Action::Index, place);
    match found {
        Callee::Alone(action) => alone(noter, noting, scopes, around, action, args)?,
        Callee::OfObject(action) => {
            of_object(noter, noting, scopes, around, action, callee, args)?
        }
        Callee::OfValue(action) => { indexed(noter, noting, scopes, around, action, callee, args)? }
        Callee::OfQuotient(action) => { of_quotient(noter, noting, scopes, around, action, args)? }
        Callee::None => noting.ends()?,
    }
    Ok(())
}

/// `E[F, G]`
pub fn index<
    'a,
    F: Fn(
        &'a Tables<'a>,
        u32,
        &mut Noting,
        &mut Scopes<'a>,
        Around,
        &'a Expr,
    ) -> Result<(), Memory>,
>(
    noter: &Noter<'a, F>,
    noting: &mut Noting,
    scopes: &mut Scopes<'a>,
    around: Around,
    place: Place,
    parts: &'a Applied,
) -> Result<(), Memory>
    requires nests { Notes noter.now.depth (F.pre noter.now.nested)
        (F.post noter.now.nested) }
    ensures states { OnOk result (noted noting.new ≡
        walked (form_walk noter.now.tables.now.program.now
        (t.Shape.index (applied_of parts.now).0 (trees (applied_of parts.now).1)) 0 place
        (scope_of scopes.old) around)
        (noted noting.old)) }
    ensures scopes { OnOk result (scope_of scopes.new ≡ scope_of scopes.old) }
{
    read_at(
        noter,
        noting,
        scopes,
        around,
        place,
        parts.callee.get(),
        parts.args.as_slice(),
    )?;
    Ok(())
}

fn started<
    'a,
    F: Fn(
        &'a Tables<'a>,
        u32,
        &mut Noting,
        &mut Scopes<'a>,
        Around,
        &'a Expr,
    ) -> Result<(), Memory>,
>(
    noter: &Noter<'a, F>,
    noting: &mut Noting,
    scopes: &mut Scopes<'a>,
    around: Around,
    place: Place,
    callee: &'a Expr,
    args: &'a [Expr],
) -> Result<(), Memory>
    requires nests { Notes noter.now.depth (F.pre noter.now.nested)
        (F.post noter.now.nested) }
    ensures states { OnOk result (noted noting.new ≡
        walked (c.spawn_by noter.now.tables.now.program.now
        (tree_of callee.now) (trees (map tree_of args.now)) (scope_of scopes.old) around
        (e.spawned_callee (e.callee_of (program_of noter.now.tables.now.program.now)
        (tree_of callee.now) (form.picking None) place)))
        (noted noting.old)) }
    ensures scopes { OnOk result (scope_of scopes.new ≡ scope_of scopes.old) }
{
    let found = spawned_callee(callee_of(noter.tables.program, callee, Action::Pick(None), place));
    match found {
        Callee::Alone(action) => alone(noter, noting, scopes, around, action, args)?,
        Callee::OfObject(action) => {
            of_object(noter, noting, scopes, around, action, callee, args)?
        }
        _ => noting.ends()?,
    }
    Ok(())
}

fn spawned<
    'a,
    F: Fn(
        &'a Tables<'a>,
        u32,
        &mut Noting,
        &mut Scopes<'a>,
        Around,
        &'a Expr,
    ) -> Result<(), Memory>,
>(
    noter: &Noter<'a, F>,
    noting: &mut Noting,
    scopes: &mut Scopes<'a>,
    around: Around,
    place: Place,
    parts: &'a Applied,
) -> Result<(), Memory>
    requires nests { Notes noter.now.depth (F.pre noter.now.nested)
        (F.post noter.now.nested) }
    ensures states { OnOk result (noted noting.new ≡
        walked (c.spawned_walk noter.now.tables.now.program.now
        (Some ((applied_of parts.now).0, trees (applied_of parts.now).1)) place
        (scope_of scopes.old) around)
        (noted noting.old)) }
    ensures scopes { OnOk result (scope_of scopes.new ≡ scope_of scopes.old) }
{
    started(
        noter,
        noting,
        scopes,
        around,
        place,
        parts.callee.get(),
        parts.args.as_slice(),
    )?;
    Ok(())
}

/// `spawn{E}`
pub fn spawn<
    'a,
    F: Fn(
        &'a Tables<'a>,
        u32,
        &mut Noting,
        &mut Scopes<'a>,
        Around,
        &'a Expr,
    ) -> Result<(), Memory>,
>(
    noter: &Noter<'a, F>,
    noting: &mut Noting,
    scopes: &mut Scopes<'a>,
    around: Around,
    part: &'a Expr,
) -> Result<(), Memory>
    requires nests { Notes noter.now.depth (F.pre noter.now.nested)
        (F.post noter.now.nested) }
    ensures states { OnOk result (noted noting.new ≡
        walked (form_walk noter.now.tables.now.program.now
        (t.Shape.spawn (tree_of part.now)) 0 no_place (scope_of scopes.old) around)
        (noted noting.old)) }
    ensures scopes { OnOk result (scope_of scopes.new ≡ scope_of scopes.old) }
{
    match called_of(part) {
        Some(parts) => spawned(noter, noting, scopes, around, part.place, parts)?,
        None => noting.ends()?,
    }
    Ok(())
}
