//! Actions on their operands.

ghost use Rattle.std.specs.Prelude.{◌≡◌, map, OnOk, IfOk};
ghost use Rattle.std.specs.Option.{option_map};
ghost use Rattle.verse_tree.specs.View.{tree_of, trees, two_of};
ghost use Rattle.verse_meaning.specs.Programs.{program_of};
ghost use Rattle.lower_code.specs.Scopes as s;
ghost use Rattle.lower_code.specs.Lowering as l;
ghost use Rattle.lower_lookup.specs.Actions.{form_of};
ghost use Rattle.lower_lookup.specs.Types.{differ_of};
ghost use Rattle.lower_calls.specs.Calls.{divided_in};
ghost use Rattle.lower_calls.specs.Views as v;
ghost use Rattle.lower_notes.specs.Stretches.{◌then◌};
ghost use Rattle.lower_expr.specs.Locals.{scope_of};
ghost use Rattle.note_stretches.specs.Noted.{noted, walked};
ghost use Rattle.note_parts.specs.Parts.{Notes};
ghost use Rattle.note_calls.specs.Calls as c;

use lower_calls::views::{chained_of, object_of};
use lower_code::arounds::Around;
use lower_declared::numbers;
use lower_expr::applied::started;
use lower_expr::scopes::{Found, Scopes};
use lower_items::tables::Tables;
use lower_lookup::actions::Action;
use lower_lookup::statements::how_many;
use lower_parts::parts::{left, right};
use note_applied::applied::{applied, start};
use note_members::indices::indices;
use note_parts::noter::{Noter, number_of};
use note_stretches::noting::Noting;
use verse_base::refusals::Memory;
use verse_tree::exprs::{Expr, Two};

/// Whether there is the object of the method.
fn has_this(scopes: &Scopes<'_>) -> Result<bool, Memory>
    ensures { IfOk result (λ fixed. fixed ≡ s.is_fixed (s.this_found (scope_of scopes.now))) }
{
    match scopes.this()? {
        Found::Fixed(_) => Ok(true),
        _ => Ok(false),
    }
}

/// Whether a called function takes so many arguments, or there is the object of one's own method.
fn fits(
    tables: &Tables<'_>,
    action: Action,
    count: usize,
    scopes: &Scopes<'_>,
) -> Result<bool, Memory>
    ensures { IfOk result (λ fits. fits ≡ l.form_fits (program_of tables.now.program.now)
        (differ_of tables.now.program.now) (form_of action) count (scope_of scopes.now)) }
{
    match action {
        Action::Call(function) | Action::Spawn(function) => {
            Ok(tables.takes_params(function, count))
        }
        _ => has_this(scopes),
    }
}

/// What is divided by `Floor` and `Ceil`.
fn divided_in<'a>(args: &'a [Expr]) -> Option<&'a Two>
    ensures { option_map v.two_now result ≡ divided_in (trees (map tree_of args.now)) }
{
    match args.split_first() {
        None => None,
        Some((only, _)) => chained_of(only),
    }
}

/// Without an operand for its callee.
pub fn alone<
    'a,
    F: Fn(
        &'a Tables<'a>,
        u32,
        &mut Noting,
        &mut Scopes<'a>,
        Around,
        &'a Expr,
    ) -> Result<(), Memory>,
>(
    noter: &Noter<'a, F>,
    noting: &mut Noting,
    scopes: &mut Scopes<'a>,
    around: Around,
    action: Action,
    args: &'a [Expr],
) -> Result<(), Memory>
    requires nests { Notes noter.now.depth (F.pre noter.now.nested)
        (F.post noter.now.nested) }
    ensures states { OnOk result (noted noting.new ≡ walked (c.alone_walk
        noter.now.tables.now.program.now
        (trees (map tree_of args.now)) (scope_of scopes.old) around (form_of action)) (noted
        noting.old)) }
    ensures scopes { OnOk result (scope_of scopes.new ≡ scope_of scopes.old) }
{
    let program = noter.tables.program;
    let count = how_many(args);
    let fits = fits(noter.tables, action, count, scopes)?;
    let above = started(action, around)?;
    start(noting, program, action, scopes)?;
    noter.operands(noting, scopes, above, args)?;
    applied(noting, program, action, numbers::number_of(count)?, fits)?;
    Ok(())
}

/// Behind the first operand.
fn behind<
    'a,
    F: Fn(
        &'a Tables<'a>,
        u32,
        &mut Noting,
        &mut Scopes<'a>,
        Around,
        &'a Expr,
    ) -> Result<(), Memory>,
>(
    noter: &Noter<'a, F>,
    noting: &mut Noting,
    scopes: &mut Scopes<'a>,
    around: Around,
    action: Action,
    args: &'a [Expr],
) -> Result<(), Memory>
    requires nests { Notes noter.now.depth (F.pre noter.now.nested)
        (F.post noter.now.nested) }
    ensures states { OnOk result (noted noting.new ≡ walked (c.behind_walk
        noter.now.tables.now.program.now
        (trees (map tree_of args.now)) (scope_of scopes.old) around (form_of action)) (noted
        noting.old)) }
    ensures scopes { OnOk result (scope_of scopes.new ≡ scope_of scopes.old) }
{
    let count = numbers::number_of(how_many(args))?;
    noter.operands(noting, scopes, around.up()?, args)?;
    applied(noting, noter.tables.program, action, count, true)?;
    Ok(())
}

/// The object of a callee.
fn object<
    'a,
    F: Fn(
        &'a Tables<'a>,
        u32,
        &mut Noting,
        &mut Scopes<'a>,
        Around,
        &'a Expr,
    ) -> Result<(), Memory>,
>(
    noter: &Noter<'a, F>,
    noting: &mut Noting,
    scopes: &mut Scopes<'a>,
    around: Around,
    callee: &'a Expr,
) -> Result<(), Memory>
    requires nests { Notes noter.now.depth (F.pre noter.now.nested)
        (F.post noter.now.nested) }
    ensures states { OnOk result (noted noting.new ≡ walked (c.object_walk
        noter.now.tables.now.program.now
        (v.object_of (tree_of callee.now)) (scope_of scopes.old) around) (noted noting.old)) }
    ensures scopes { OnOk result (scope_of scopes.new ≡ scope_of scopes.old) }
{
    match object_of(callee) {
        Some(object) => noter.part(noting, scopes, around, object)?,
        None => noting.ends()?,
    }
    Ok(())
}

/// With the object of its callee.
pub fn of_object<
    'a,
    F: Fn(
        &'a Tables<'a>,
        u32,
        &mut Noting,
        &mut Scopes<'a>,
        Around,
        &'a Expr,
    ) -> Result<(), Memory>,
>(
    noter: &Noter<'a, F>,
    noting: &mut Noting,
    scopes: &mut Scopes<'a>,
    around: Around,
    action: Action,
    callee: &'a Expr,
    args: &'a [Expr],
) -> Result<(), Memory>
    requires nests { Notes noter.now.depth (F.pre noter.now.nested)
        (F.post noter.now.nested) }
    ensures states { OnOk result (noted noting.new ≡ walked (c.object_walk
        noter.now.tables.now.program.now
        (v.object_of (tree_of callee.now)) (scope_of scopes.old) around then
        c.behind_walk noter.now.tables.now.program.now
        (trees (map tree_of args.now)) (scope_of scopes.old) around (form_of action)) (noted
        noting.old)) }
    ensures scopes { OnOk result (scope_of scopes.new ≡ scope_of scopes.old) }
{
    object(noter, noting, scopes, around, callee)?;
    behind(noter, noting, scopes, around, action, args)?;
    Ok(())
}

/// With the value of its callee alone.
pub fn of_value<
    'a,
    F: Fn(
        &'a Tables<'a>,
        u32,
        &mut Noting,
        &mut Scopes<'a>,
        Around,
        &'a Expr,
    ) -> Result<(), Memory>,
>(
    noter: &Noter<'a, F>,
    noting: &mut Noting,
    scopes: &mut Scopes<'a>,
    around: Around,
    action: Action,
    callee: &'a Expr,
) -> Result<(), Memory>
    requires nests { Notes noter.now.depth (F.pre noter.now.nested)
        (F.post noter.now.nested) }
    ensures states { OnOk result (noted noting.new ≡ walked (c.picked_walk
        noter.now.tables.now.program.now
        (tree_of callee.now) (scope_of scopes.old) around (form_of action)) (noted noting.old)) }
    ensures scopes { OnOk result (scope_of scopes.new ≡ scope_of scopes.old) }
{
    noter.part(noting, scopes, around, callee)?;
    applied(noting, noter.tables.program, action, 0, true)?;
    Ok(())
}

/// With the value of its callee, and indices.
pub fn indexed<
    'a,
    F: Fn(
        &'a Tables<'a>,
        u32,
        &mut Noting,
        &mut Scopes<'a>,
        Around,
        &'a Expr,
    ) -> Result<(), Memory>,
>(
    noter: &Noter<'a, F>,
    noting: &mut Noting,
    scopes: &mut Scopes<'a>,
    around: Around,
    action: Action,
    callee: &'a Expr,
    args: &'a [Expr],
) -> Result<(), Memory>
    requires nests { Notes noter.now.depth (F.pre noter.now.nested)
        (F.post noter.now.nested) }
    ensures states { OnOk result (noted noting.new ≡ walked (c.indexed_walk
        noter.now.tables.now.program.now
        (tree_of callee.now) (trees (map tree_of args.now)) (scope_of scopes.old) around
        (form_of action)) (noted noting.old)) }
    ensures scopes { OnOk result (scope_of scopes.new ≡ scope_of scopes.old) }
{
    let count = numbers::number_of(how_many(args))?;
    noter.part(noting, scopes, around, callee)?;
    indices(noter, noting, scopes, around.up()?, number_of(callee), args)?;
    applied(noting, noter.tables.program, action, count, true)?;
    Ok(())
}

/// Both parts of what is divided.
#[tactic(auto, using(note_stretches::proofs::Laws::walked_then))]
fn both<
    'a,
    F: Fn(
        &'a Tables<'a>,
        u32,
        &mut Noting,
        &mut Scopes<'a>,
        Around,
        &'a Expr,
    ) -> Result<(), Memory>,
>(
    noter: &Noter<'a, F>,
    noting: &mut Noting,
    scopes: &mut Scopes<'a>,
    around: Around,
    parts: &'a Two,
) -> Result<(), Memory>
    requires nests { Notes noter.now.depth (F.pre noter.now.nested)
        (F.post noter.now.nested) }
    ensures states { OnOk result (noted noting.new ≡ walked (c.both_walk
        noter.now.tables.now.program.now
        (two_of parts.now) (scope_of scopes.old) around) (noted noting.old)) }
    ensures scopes { OnOk result (scope_of scopes.new ≡ scope_of scopes.old) }
{
    noter.part(noting, scopes, around, left(parts))?;
    noter.part(noting, scopes, around.up()?, right(parts))?;
    Ok(())
}

/// What is divided.
fn divided<
    'a,
    F: Fn(
        &'a Tables<'a>,
        u32,
        &mut Noting,
        &mut Scopes<'a>,
        Around,
        &'a Expr,
    ) -> Result<(), Memory>,
>(
    noter: &Noter<'a, F>,
    noting: &mut Noting,
    scopes: &mut Scopes<'a>,
    around: Around,
    args: &'a [Expr],
) -> Result<(), Memory>
    requires nests { Notes noter.now.depth (F.pre noter.now.nested)
        (F.post noter.now.nested) }
    ensures states { OnOk result (noted noting.new ≡ walked (c.divided_walk
        noter.now.tables.now.program.now
        (divided_in (trees (map tree_of args.now))) (scope_of scopes.old) around) (noted
        noting.old)) }
    ensures scopes { OnOk result (scope_of scopes.new ≡ scope_of scopes.old) }
{
    match divided_in(args) {
        Some(parts) => both(noter, noting, scopes, around, parts)?,
        None => noting.ends()?,
    }
    Ok(())
}

/// Of a quotient.
pub fn of_quotient<
    'a,
    F: Fn(
        &'a Tables<'a>,
        u32,
        &mut Noting,
        &mut Scopes<'a>,
        Around,
        &'a Expr,
    ) -> Result<(), Memory>,
>(
    noter: &Noter<'a, F>,
    noting: &mut Noting,
    scopes: &mut Scopes<'a>,
    around: Around,
    action: Action,
    args: &'a [Expr],
) -> Result<(), Memory>
    requires nests { Notes noter.now.depth (F.pre noter.now.nested)
        (F.post noter.now.nested) }
    ensures states { OnOk result (noted noting.new ≡ walked (c.quotient_walk
        noter.now.tables.now.program.now
        (trees (map tree_of args.now)) (scope_of scopes.old) around (form_of action)) (noted
        noting.old)) }
    ensures scopes { OnOk result (scope_of scopes.new ≡ scope_of scopes.old) }
{
    divided(noter, noting, scopes, around, args)?;
    applied(noting, noter.tables.program, action, 2, true)?;
    Ok(())
}
