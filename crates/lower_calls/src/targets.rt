//! `set`, and what it writes to.

ghost use Rattle.std.specs.Prelude.{◌≡◌, ◌+◌, map, OnOk, IfOk};
ghost use Rattle.verse_tree.specs.View.{tree_of, trees, two_of};
ghost use Rattle.verse_tree.specs.Tree as t;
ghost use Rattle.lower_code.specs.Lowering as l;
ghost use Rattle.lower_lookup.specs.Members.{base_view};
ghost use Rattle.lower_expr.specs.Building.{built, made};
ghost use Rattle.lower_expr.specs.Locals.{scope_of};
ghost use Rattle.lower_parts.specs.Parts.{form_code, Lowers};
ghost use Rattle.lower_calls.specs.Aims as m;

use crate::aims::{Aim, aim_of, levels, under};
use crate::bases::{base_code, has_base, keeps, raised, slot_of};
use lower_code::arounds::Around;
use lower_expr::builder::Builder;
use lower_expr::endings::{Ending, Storing, mode_number};
use lower_expr::scopes::Scopes;
use lower_items::tables::Tables;
use lower_lookup::members::{Base, base_of};
use lower_lookup::statements::how_many;
use lower_lookup::types::differ;
use lower_parts::lowering::Lowering;
use verse_base::places::Place;
use verse_base::refusals::Memory;
use verse_tree::exprs::{Assign, Expr, Two};

/// So many operands and those beneath them; more than there are count as want of memory.
fn sum_of(count: usize, beneath: u32) -> Result<u32, Memory>
    ensures { IfOk result (λ n. n ≡ count + beneath) }
{
    let Ok(number) = u32::try_from(count) else {
        return Err(Memory);
    };
    match number.checked_add(beneath) {
        Some(sum) => Ok(sum),
        None => Err(Memory),
    }
}

/// What no index stands behind.
fn bottom<
    'a,
    F: Fn(
        &'a Tables<'a>,
        u32,
        &mut Builder,
        &mut Scopes<'a>,
        Around,
        &'a Expr,
    ) -> Result<(), Memory>,
>(
    lowering: &Lowering<'a, F>,
    builder: &mut Builder,
    scopes: &mut Scopes<'a>,
    around: Around,
    base: Base<'a>,
    part: &'a Expr,
) -> Result<(), Memory>
    requires nests { Lowers lowering.now.depth (F.pre lowering.now.nested)
        (F.post lowering.now.nested) }
    ensures code { OnOk result (built builder.new ≡
        made (m.bottom_code lowering.now.tables.now.program.now
        (m.aimed (tree_of part.now)) (base_view base.entry) (scope_of scopes.old) around)
        (built builder.old)) }
    ensures scopes { OnOk result (scope_of scopes.new ≡ scope_of scopes.old) }
{
    match aim_of(part) {
        Aim::Name => builder.ending(base_code(base, scopes)?)?,
        Aim::Member(object) => lowering.part(builder, scopes, around, object)?,
        Aim::Index(_) | Aim::Other => builder.stuck()?,
    }
    Ok(())
}

/// The arguments of the last index, where so many operands lead to what is indexed; how many
/// lead to it.
fn level<
    'a,
    F: Fn(
        &'a Tables<'a>,
        u32,
        &mut Builder,
        &mut Scopes<'a>,
        Around,
        &'a Expr,
    ) -> Result<(), Memory>,
>(
    lowering: &Lowering<'a, F>,
    builder: &mut Builder,
    scopes: &mut Scopes<'a>,
    around: Around,
    beneath: u32,
    part: &'a Expr,
) -> Result<u32, Memory>
    requires nests { Lowers lowering.now.depth (F.pre lowering.now.nested)
        (F.post lowering.now.nested) }
    ensures count { IfOk result (λ n. n ≡ m.operands_to beneath (m.aimed (tree_of part.now))) }
    ensures code { OnOk result (built builder.new ≡
        made (m.level_code lowering.now.tables.now.program.now
        beneath (m.aimed (tree_of part.now)) (scope_of scopes.old) around)
        (built builder.old)) }
    ensures scopes { OnOk result (scope_of scopes.new ≡ scope_of scopes.old) }
{
    match aim_of(part) {
        Aim::Index(parts) => {
            let args = parts.args.as_slice();
            let above = raised(beneath, around)?.up()?;
            lowering.operands(builder, scopes, above, args)?;
            Ok(sum_of(how_many(args), beneath)?)
        }
        Aim::Name | Aim::Member(_) | Aim::Other => {
            builder.stuck()?;
            Ok(0)
        }
    }
}

/// The cell and the indices of a target; how many indices there are.
fn target<
    'a,
    F: Fn(
        &'a Tables<'a>,
        u32,
        &mut Builder,
        &mut Scopes<'a>,
        Around,
        &'a Expr,
    ) -> Result<(), Memory>,
>(
    lowering: &Lowering<'a, F>,
    builder: &mut Builder,
    scopes: &mut Scopes<'a>,
    around: Around,
    base: Base<'a>,
    whole: &'a Expr,
) -> Result<u32, Memory>
    requires nests { Lowers lowering.now.depth (F.pre lowering.now.nested)
        (F.post lowering.now.nested) }
    ensures count { IfOk result (λ n. n ≡ l.target_operands (tree_of whole.now)) }
    ensures code { OnOk result (built builder.new ≡
        made (m.target_code lowering.now.tables.now.program.now
        (tree_of whole.now) (base_view base.entry) (scope_of scopes.old) around)
        (built builder.old)) }
    ensures scopes { OnOk result (scope_of scopes.new ≡ scope_of scopes.old) }
{
    let mut left = levels(whole)?;
    bottom(lowering, builder, scopes, around, base, under(whole, left))?;
    let mut count = 0u32;
    'levels: while left > 0 {
        left -= 1;
        count = level(lowering, builder, scopes, around, count, under(whole, left))?;
    }
    Ok(count)
}

fn assigned<
    'a,
    F: Fn(
        &'a Tables<'a>,
        u32,
        &mut Builder,
        &mut Scopes<'a>,
        Around,
        &'a Expr,
    ) -> Result<(), Memory>,
>(
    lowering: &Lowering<'a, F>,
    builder: &mut Builder,
    scopes: &mut Scopes<'a>,
    around: Around,
    place: Place,
    assign: Assign,
    part: &'a Expr,
    value: &'a Expr,
) -> Result<(), Memory>
    requires nests { Lowers lowering.now.depth (F.pre lowering.now.nested)
        (F.post lowering.now.nested) }
    ensures code { OnOk result (built builder.new ≡
        made (form_code lowering.now.tables.now.program.now
        (t.Shape.assignment assign (tree_of part.now) (tree_of value.now)) 0 place
        (scope_of scopes.old) around)
        (built builder.old)) }
    ensures scopes { OnOk result (scope_of scopes.new ≡ scope_of scopes.old) }
{
    let program = lowering.tables.program;
    let base = base_of(program, part);
    let indices = target(lowering, builder, scopes, around, base, part)?;
    let above = raised(indices, around)?.up()?;
    lowering.part(builder, scopes, above, value)?;
    let storing = Storing {
        there: has_base(part, base, scopes)?,
        place,
        slot: slot_of(base),
        indices,
        mode: mode_number(assign),
        keeps: keeps(assign, differ(program, part.node, value.node)),
        local: scopes.count()?,
    };
    builder.ending(Ending::Store(storing))?;
    Ok(())
}

/// `set P = E`, `set P += E`, `set P -= E` and `set P *= E`
pub fn set<
    'a,
    F: Fn(
        &'a Tables<'a>,
        u32,
        &mut Builder,
        &mut Scopes<'a>,
        Around,
        &'a Expr,
    ) -> Result<(), Memory>,
>(
    lowering: &Lowering<'a, F>,
    builder: &mut Builder,
    scopes: &mut Scopes<'a>,
    around: Around,
    place: Place,
    assign: Assign,
    parts: &'a Two,
) -> Result<(), Memory>
    requires nests { Lowers lowering.now.depth (F.pre lowering.now.nested)
        (F.post lowering.now.nested) }
    ensures code { OnOk result (built builder.new ≡
        made (form_code lowering.now.tables.now.program.now
        (t.Shape.assignment assign (two_of parts.now).0 (two_of parts.now).1) 0 place
        (scope_of scopes.old) around)
        (built builder.old)) }
    ensures scopes { OnOk result (scope_of scopes.new ≡ scope_of scopes.old) }
{
    assigned(
        lowering,
        builder,
        scopes,
        around,
        place,
        assign,
        parts.left.get(),
        parts.right.get(),
    )?;
    Ok(())
}
