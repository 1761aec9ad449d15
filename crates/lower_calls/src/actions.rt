//! Actions on their operands.

ghost use Rattle.std.specs.Prelude.{◌≡◌, map, OnOk, IfOk};
ghost use Rattle.verse_tree.specs.View.{tree_of, trees, two_of};
ghost use Rattle.verse_meaning.specs.Programs.{program_of};
ghost use Rattle.std.specs.Option.{option_map};
ghost use Rattle.lower_code.specs.Pieces.{◌then◌};
ghost use Rattle.lower_code.specs.Scopes as s;
ghost use Rattle.lower_code.specs.Lowering as l;
ghost use Rattle.lower_lookup.specs.Actions.{form_of};
ghost use Rattle.lower_lookup.specs.Types.{differ_of};
ghost use Rattle.lower_expr.specs.Building.{built, made};
ghost use Rattle.lower_expr.specs.Locals.{scope_of};
ghost use Rattle.lower_parts.specs.Parts.{Lowers};
ghost use Rattle.lower_calls.specs.Calls as c;
ghost use Rattle.lower_calls.specs.Views as v;

use crate::views::{chained_of, object_of};
use lower_code::arounds::Around;
use lower_declared::numbers::number_of;
use lower_expr::applied::{applied, start, started};
use lower_expr::builder::Builder;
use lower_expr::scopes::{Found, Scopes};
use lower_items::tables::Tables;
use lower_lookup::actions::Action;
use lower_lookup::statements::how_many;
use lower_parts::lowering::Lowering;
use verse_base::refusals::Memory;
use verse_tree::exprs::{Expr, Two};

/// Whether there is the object of the method.
fn has_this(scopes: &Scopes<'_>) -> Result<bool, Memory>
    ensures { IfOk result (λ fixed. fixed ≡ s.is_fixed (s.this_found (scope_of scopes.now))) }
{
    match scopes.this()? {
        Found::Fixed(_) => Ok(true),
        _ => Ok(false),
    }
}

/// Whether a called function takes so many arguments, or there is the object of one's own method.
fn fits(
    tables: &Tables<'_>,
    action: Action,
    count: usize,
    scopes: &Scopes<'_>,
) -> Result<bool, Memory>
    ensures { IfOk result (λ fits. fits ≡ l.form_fits (program_of tables.now.program.now)
        (differ_of tables.now.program.now) (form_of action) count (scope_of scopes.now)) }
{
    match action {
        Action::Call(function) | Action::Spawn(function) => {
            Ok(tables.takes_params(function, count))
        }
        _ => has_this(scopes),
    }
}

/// What is divided by `Floor` and `Ceil`.
fn divided_in<'a>(args: &'a [Expr]) -> Option<&'a Two>
    ensures { option_map v.two_now result ≡ c.divided_in (trees (map tree_of args.now)) }
{
    match args.split_first() {
        None => None,
        Some((only, _)) => chained_of(only),
    }
}

/// Without an operand for its callee.
pub fn alone<
    'a,
    F: Fn(
        &'a Tables<'a>,
        u32,
        &mut Builder,
        &mut Scopes<'a>,
        Around,
        &'a Expr,
    ) -> Result<(), Memory>,
>(
    lowering: &Lowering<'a, F>,
    builder: &mut Builder,
    scopes: &mut Scopes<'a>,
    around: Around,
    action: Action,
    args: &'a [Expr],
) -> Result<(), Memory>
    requires nests { Lowers lowering.now.depth (F.pre lowering.now.nested)
        (F.post lowering.now.nested) }
    ensures code { OnOk result (built builder.new ≡
        made (c.alone_code lowering.now.tables.now.program.now
        (trees (map tree_of args.now)) (scope_of scopes.old) around (form_of action))
        (built builder.old)) }
    ensures scopes { OnOk result (scope_of scopes.new ≡ scope_of scopes.old) }
{
    let count = how_many(args);
    let fits = fits(lowering.tables, action, count, scopes)?;
    let above = started(action, around)?;
    builder.ending(start(action, scopes)?)?;
    lowering.operands(builder, scopes, above, args)?;
    builder.ending(applied(action, number_of(count)?, fits)?)?;
    Ok(())
}

/// Behind the first operand.
fn behind<
    'a,
    F: Fn(
        &'a Tables<'a>,
        u32,
        &mut Builder,
        &mut Scopes<'a>,
        Around,
        &'a Expr,
    ) -> Result<(), Memory>,
>(
    lowering: &Lowering<'a, F>,
    builder: &mut Builder,
    scopes: &mut Scopes<'a>,
    around: Around,
    action: Action,
    args: &'a [Expr],
) -> Result<(), Memory>
    requires nests { Lowers lowering.now.depth (F.pre lowering.now.nested)
        (F.post lowering.now.nested) }
    ensures code { OnOk result (built builder.new ≡
        made (c.behind_code lowering.now.tables.now.program.now
        (trees (map tree_of args.now)) (scope_of scopes.old) around (form_of action))
        (built builder.old)) }
    ensures scopes { OnOk result (scope_of scopes.new ≡ scope_of scopes.old) }
{
    let count = number_of(how_many(args))?;
    lowering.operands(builder, scopes, around.up()?, args)?;
    builder.ending(applied(action, count, true)?)?;
    Ok(())
}

/// The object of a callee.
fn object<
    'a,
    F: Fn(
        &'a Tables<'a>,
        u32,
        &mut Builder,
        &mut Scopes<'a>,
        Around,
        &'a Expr,
    ) -> Result<(), Memory>,
>(
    lowering: &Lowering<'a, F>,
    builder: &mut Builder,
    scopes: &mut Scopes<'a>,
    around: Around,
    callee: &'a Expr,
) -> Result<(), Memory>
    requires nests { Lowers lowering.now.depth (F.pre lowering.now.nested)
        (F.post lowering.now.nested) }
    ensures code { OnOk result (built builder.new ≡
        made (c.object_code lowering.now.tables.now.program.now
        (v.object_of (tree_of callee.now)) (scope_of scopes.old) around)
        (built builder.old)) }
    ensures scopes { OnOk result (scope_of scopes.new ≡ scope_of scopes.old) }
{
    match object_of(callee) {
        Some(object) => lowering.part(builder, scopes, around, object)?,
        None => builder.stuck()?,
    }
    Ok(())
}

/// With the object of its callee.
pub fn of_object<
    'a,
    F: Fn(
        &'a Tables<'a>,
        u32,
        &mut Builder,
        &mut Scopes<'a>,
        Around,
        &'a Expr,
    ) -> Result<(), Memory>,
>(
    lowering: &Lowering<'a, F>,
    builder: &mut Builder,
    scopes: &mut Scopes<'a>,
    around: Around,
    action: Action,
    callee: &'a Expr,
    args: &'a [Expr],
) -> Result<(), Memory>
    requires nests { Lowers lowering.now.depth (F.pre lowering.now.nested)
        (F.post lowering.now.nested) }
    ensures code { OnOk result (built builder.new ≡
        made (c.object_code lowering.now.tables.now.program.now
        (v.object_of (tree_of callee.now)) (scope_of scopes.old) around then
        c.behind_code lowering.now.tables.now.program.now
        (trees (map tree_of args.now)) (scope_of scopes.old) around (form_of action))
        (built builder.old)) }
    ensures scopes { OnOk result (scope_of scopes.new ≡ scope_of scopes.old) }
{
    object(lowering, builder, scopes, around, callee)?;
    behind(lowering, builder, scopes, around, action, args)?;
    Ok(())
}

/// With the value of its callee alone.
pub fn of_value<
    'a,
    F: Fn(
        &'a Tables<'a>,
        u32,
        &mut Builder,
        &mut Scopes<'a>,
        Around,
        &'a Expr,
    ) -> Result<(), Memory>,
>(
    lowering: &Lowering<'a, F>,
    builder: &mut Builder,
    scopes: &mut Scopes<'a>,
    around: Around,
    action: Action,
    callee: &'a Expr,
) -> Result<(), Memory>
    requires nests { Lowers lowering.now.depth (F.pre lowering.now.nested)
        (F.post lowering.now.nested) }
    ensures code { OnOk result (built builder.new ≡
        made (c.picked_code lowering.now.tables.now.program.now
        (tree_of callee.now) (scope_of scopes.old) around (form_of action))
        (built builder.old)) }
    ensures scopes { OnOk result (scope_of scopes.new ≡ scope_of scopes.old) }
{
    lowering.part(builder, scopes, around, callee)?;
    builder.ending(applied(action, 0, true)?)?;
    Ok(())
}

/// With the value of its callee.
pub fn indexed<
    'a,
    F: Fn(
        &'a Tables<'a>,
        u32,
        &mut Builder,
        &mut Scopes<'a>,
        Around,
        &'a Expr,
    ) -> Result<(), Memory>,
>(
    lowering: &Lowering<'a, F>,
    builder: &mut Builder,
    scopes: &mut Scopes<'a>,
    around: Around,
    action: Action,
    callee: &'a Expr,
    args: &'a [Expr],
) -> Result<(), Memory>
    requires nests { Lowers lowering.now.depth (F.pre lowering.now.nested)
        (F.post lowering.now.nested) }
    ensures code { OnOk result (built builder.new ≡
        made (c.indexed_code lowering.now.tables.now.program.now
        (tree_of callee.now) (trees (map tree_of args.now))
        (scope_of scopes.old) around (form_of action))
        (built builder.old)) }
    ensures scopes { OnOk result (scope_of scopes.new ≡ scope_of scopes.old) }
{
    lowering.part(builder, scopes, around, callee)?;
    behind(lowering, builder, scopes, around, action, args)?;
    Ok(())
}

/// Both parts of a quotient.
fn both<
    'a,
    F: Fn(
        &'a Tables<'a>,
        u32,
        &mut Builder,
        &mut Scopes<'a>,
        Around,
        &'a Expr,
    ) -> Result<(), Memory>,
>(
    lowering: &Lowering<'a, F>,
    builder: &mut Builder,
    scopes: &mut Scopes<'a>,
    around: Around,
    parts: &'a Two,
) -> Result<(), Memory>
    requires nests { Lowers lowering.now.depth (F.pre lowering.now.nested)
        (F.post lowering.now.nested) }
    ensures code { OnOk result (built builder.new ≡
        made (c.both_code lowering.now.tables.now.program.now
        (two_of parts.now) (scope_of scopes.old) around)
        (built builder.old)) }
    ensures scopes { OnOk result (scope_of scopes.new ≡ scope_of scopes.old) }
{
    lowering.part(builder, scopes, around, parts.left.get())?;
    lowering.part(builder, scopes, around.up()?, parts.right.get())?;
    Ok(())
}

/// What is divided.
fn divided<
    'a,
    F: Fn(
        &'a Tables<'a>,
        u32,
        &mut Builder,
        &mut Scopes<'a>,
        Around,
        &'a Expr,
    ) -> Result<(), Memory>,
>(
    lowering: &Lowering<'a, F>,
    builder: &mut Builder,
    scopes: &mut Scopes<'a>,
    around: Around,
    args: &'a [Expr],
) -> Result<(), Memory>
    requires nests { Lowers lowering.now.depth (F.pre lowering.now.nested)
        (F.post lowering.now.nested) }
    ensures code { OnOk result (built builder.new ≡
        made (c.divided_code lowering.now.tables.now.program.now
        (c.divided_in (trees (map tree_of args.now))) (scope_of scopes.old) around)
        (built builder.old)) }
    ensures scopes { OnOk result (scope_of scopes.new ≡ scope_of scopes.old) }
{
    match divided_in(args) {
        Some(parts) => both(lowering, builder, scopes, around, parts)?,
        None => builder.stuck()?,
    }
    Ok(())
}

/// Of a quotient.
pub fn of_quotient<
    'a,
    F: Fn(
        &'a Tables<'a>,
        u32,
        &mut Builder,
        &mut Scopes<'a>,
        Around,
        &'a Expr,
    ) -> Result<(), Memory>,
>(
    lowering: &Lowering<'a, F>,
    builder: &mut Builder,
    scopes: &mut Scopes<'a>,
    around: Around,
    action: Action,
    args: &'a [Expr],
) -> Result<(), Memory>
    requires nests { Lowers lowering.now.depth (F.pre lowering.now.nested)
        (F.post lowering.now.nested) }
    ensures code { OnOk result (built builder.new ≡
        made (c.quotient_code lowering.now.tables.now.program.now
        (trees (map tree_of args.now)) (scope_of scopes.old) around (form_of action))
        (built builder.old)) }
    ensures scopes { OnOk result (scope_of scopes.new ≡ scope_of scopes.old) }
{
    divided(lowering, builder, scopes, around, args)?;
    builder.ending(applied(action, 2, true)?)?;
    Ok(())
}
