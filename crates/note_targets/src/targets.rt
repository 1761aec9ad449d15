//! `set`, and what it writes to.

ghost use Rattle.std.specs.Prelude.{◌≡◌, ◌+◌, OnOk, IfOk};
ghost use Rattle.verse_tree.specs.View.{tree_of, two_of};
ghost use Rattle.verse_tree.specs.Tree as t;
ghost use Rattle.lower_code.specs.Lowering as l;
ghost use Rattle.lower_lookup.specs.Members.{base_view};
ghost use Rattle.lower_calls.specs.Aims as m;
ghost use Rattle.lower_notes.specs.Applied as p;
ghost use Rattle.lower_expr.specs.Locals.{scope_of};
ghost use Rattle.note_stretches.specs.Noted.{noted, walked};
ghost use Rattle.note_parts.specs.Parts.{form_walk, no_place, Notes};
ghost use Rattle.note_targets.specs.Targets as w;

use lower_calls::aims::{Aim, aim_of, levels, under};
use lower_calls::bases::{has_base, keeps, raised};
use lower_code::arounds::{Around, next};
use lower_expr::scopes::Scopes;
use lower_items::tables::Tables;
use lower_lookup::members::{Base, base_of};
use lower_lookup::statements::how_many;
use lower_lookup::types::differ;
use lower_parts::parts;
use note_applied::names::{push_fixed, push_varies};
use note_applied::values::{Storing, store};
use note_members::indices::indices;
use note_parts::noter::{Noter, number_of};
use note_sorts::kinds::Kind;
use note_stretches::noting::Noting;
use verse_base::refusals::Memory;
use verse_tree::exprs::{Assign, Expr, Two};
use verse_tree::programs::Program;

/// The cell of a base.
fn base_cell(
    noting: &mut Noting,
    program: &Program,
    base: Base<'_>,
    scopes: &Scopes<'_>,
) -> Result<(), Memory>
    ensures { OnOk result (noted noting.new ≡ walked (p.base_walk (base_view base.entry)
        (scope_of scopes.now)) (noted noting.old)) }
{
    match base {
        Base::Variable(name) => push_varies(noting, program, scopes.find(name)?),
        Base::Own(_) => push_fixed(noting, program, scopes.this()?),
        Base::Object(_) | Base::Nowhere => noting.push(program, Kind::Unit),
    }
}

/// So many operands and those beneath them; more than there are count as want of memory.
fn sum_of(count: usize, beneath: u32) -> Result<u32, Memory>
    ensures { IfOk result (λ n. n ≡ count + beneath) }
{
    let Ok(number) = u32::try_from(count) else {
        return Err(Memory);
    };
    match number.checked_add(beneath) {
        Some(sum) => Ok(sum),
        None => Err(Memory),
    }
}

/// What no index stands behind.
fn bottom<
    'a,
    F: Fn(
        &'a Tables<'a>,
        u32,
        &mut Noting,
        &mut Scopes<'a>,
        Around,
        &'a Expr,
    ) -> Result<(), Memory>,
>(
    noter: &Noter<'a, F>,
    noting: &mut Noting,
    scopes: &mut Scopes<'a>,
    around: Around,
    base: Base<'a>,
    part: &'a Expr,
) -> Result<(), Memory>
    requires nests { Notes noter.now.depth (F.pre noter.now.nested)
        (F.post noter.now.nested) }
    ensures states { OnOk result (noted noting.new ≡ walked (w.bottom_walk
        noter.now.tables.now.program.now
        (m.aimed (tree_of part.now)) (base_view base.entry) (scope_of scopes.old) around) (noted
        noting.old)) }
    ensures scopes { OnOk result (scope_of scopes.new ≡ scope_of scopes.old) }
{
    match aim_of(part) {
        Aim::Name => base_cell(noting, noter.tables.program, base, scopes)?,
        Aim::Member(object) => noter.part(noting, scopes, around, object)?,
        Aim::Index(_) | Aim::Other => noting.ends()?,
    }
    Ok(())
}

/// The arguments of the last index, where so many operands lead to what is indexed; how many
/// lead to it.
fn level<
    'a,
    F: Fn(
        &'a Tables<'a>,
        u32,
        &mut Noting,
        &mut Scopes<'a>,
        Around,
        &'a Expr,
    ) -> Result<(), Memory>,
>(
    noter: &Noter<'a, F>,
    noting: &mut Noting,
    scopes: &mut Scopes<'a>,
    around: Around,
    beneath: u32,
    part: &'a Expr,
) -> Result<u32, Memory>
    requires nests { Notes noter.now.depth (F.pre noter.now.nested)
        (F.post noter.now.nested) }
    ensures count { IfOk result (λ n. n ≡ m.operands_to beneath (m.aimed (tree_of part.now))) }
    ensures states { OnOk result (noted noting.new ≡ walked (w.level_walk
        noter.now.tables.now.program.now
        beneath (m.aimed (tree_of part.now)) (scope_of scopes.old) around) (noted noting.old)) }
    ensures scopes { OnOk result (scope_of scopes.new ≡ scope_of scopes.old) }
{
    match aim_of(part) {
        Aim::Index(parts) => {
            let args = parts.args.as_slice();
            let above = raised(beneath, around)?.up()?;
            let of = number_of(parts.callee.get());
            indices(noter, noting, scopes, above, of, args)?;
            Ok(sum_of(how_many(args), beneath)?)
        }
        Aim::Name | Aim::Member(_) | Aim::Other => {
            noting.ends()?;
            Ok(0)
        }
    }
}

/// The cell and the indices of a target; how many indices there are.
fn target<
    'a,
    F: Fn(
        &'a Tables<'a>,
        u32,
        &mut Noting,
        &mut Scopes<'a>,
        Around,
        &'a Expr,
    ) -> Result<(), Memory>,
>(
    noter: &Noter<'a, F>,
    noting: &mut Noting,
    scopes: &mut Scopes<'a>,
    around: Around,
    base: Base<'a>,
    whole: &'a Expr,
) -> Result<u32, Memory>
    requires nests { Notes noter.now.depth (F.pre noter.now.nested)
        (F.post noter.now.nested) }
    ensures count { IfOk result (λ n. n ≡ l.target_operands (tree_of whole.now)) }
    ensures states { OnOk result (noted noting.new ≡ walked (w.target_walk
        noter.now.tables.now.program.now
        (tree_of whole.now) (base_view base.entry) (scope_of scopes.old) around) (noted
        noting.old)) }
    ensures scopes { OnOk result (scope_of scopes.new ≡ scope_of scopes.old) }
{
    let mut left = levels(whole)?;
    bottom(noter, noting, scopes, around, base, under(whole, left))?;
    let mut count = 0u32;
    'levels: while left > 0 {
        left -= 1;
        count = level(noter, noting, scopes, around, count, under(whole, left))?;
    }
    Ok(count)
}

/// What a `set` does behind its value, where there is its cell.
fn stored(
    noting: &mut Noting,
    program: &Program,
    there: bool,
    storing: Storing,
) -> Result<(), Memory>
    ensures { OnOk result (noted noting.new ≡ walked (w.stored_walk program.now there storing)
        (noted noting.old)) }
{
    if there {
        store(noting, program, storing)
    } else {
        noting.ends()
    }
}

/// A `set`, by its parts.
fn assigned<
    'a,
    F: Fn(
        &'a Tables<'a>,
        u32,
        &mut Noting,
        &mut Scopes<'a>,
        Around,
        &'a Expr,
    ) -> Result<(), Memory>,
>(
    noter: &Noter<'a, F>,
    noting: &mut Noting,
    scopes: &mut Scopes<'a>,
    around: Around,
    assign: Assign,
    part: &'a Expr,
    value: &'a Expr,
) -> Result<(), Memory>
    requires nests { Notes noter.now.depth (F.pre noter.now.nested)
        (F.post noter.now.nested) }
    ensures states { OnOk result (noted noting.new ≡ walked (form_walk
        noter.now.tables.now.program.now (t.Shape.assignment assign (tree_of part.now)
        (tree_of value.now)) 0 no_place
        (scope_of scopes.old) around) (noted noting.old)) }
    ensures scopes { OnOk result (scope_of scopes.new ≡ scope_of scopes.old) }
{
    let program = noter.tables.program;
    let base = base_of(program, part);
    let beneath = target(noter, noting, scopes, around, base, part)?;
    let above = raised(beneath, around)?.up()?;
    noter.part(noting, scopes, above, value)?;
    let there = has_base(part, base, scopes)?;
    let storing = Storing {
        keeps: keeps(assign, differ(program, number_of(part), number_of(value))),
        local: scopes.count()?,
        beneath: next(beneath)?,
        place: number_of(part),
        value: number_of(value),
    };
    stored(noting, program, there, storing)?;
    Ok(())
}

/// `set P = E`, `set P += E`, `set P -= E` and `set P *= E`
pub fn set<
    'a,
    F: Fn(
        &'a Tables<'a>,
        u32,
        &mut Noting,
        &mut Scopes<'a>,
        Around,
        &'a Expr,
    ) -> Result<(), Memory>,
>(
    noter: &Noter<'a, F>,
    noting: &mut Noting,
    scopes: &mut Scopes<'a>,
    around: Around,
    assign: Assign,
    two: &'a Two,
) -> Result<(), Memory>
    requires nests { Notes noter.now.depth (F.pre noter.now.nested)
        (F.post noter.now.nested) }
    ensures states { OnOk result (noted noting.new ≡ walked (form_walk
        noter.now.tables.now.program.now (t.Shape.assignment assign (two_of two.now).0
        (two_of two.now).1) 0 no_place
        (scope_of scopes.old) around) (noted noting.old)) }
    ensures scopes { OnOk result (scope_of scopes.new ≡ scope_of scopes.old) }
{
    assigned(
        noter,
        noting,
        scopes,
        around,
        assign,
        parts::left(two),
        parts::right(two),
    )?;
    Ok(())
}
