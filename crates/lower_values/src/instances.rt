//! Instances of classes.

ghost use Rattle.std.specs.Prelude.{◌≡◌, ◌∷◌, map, OnOk, IfOk, Some, length};
ghost use Rattle.verse_tree.specs.View.{tree_of, given_of, givens};
ghost use Rattle.verse_tree.specs.Tree as t;
ghost use Rattle.lower_expr.specs.Building.{built, made};
ghost use Rattle.lower_expr.specs.Locals.{scope_of};
ghost use Rattle.lower_parts.specs.Parts.{form_code, Lowers, Grown};
ghost use Rattle.std.specs.Option.{option_map};
ghost use Rattle.verse_tree.specs.ItemView.{field_of};
ghost use Rattle.verse_meaning.specs.Programs as p;
ghost use Rattle.verse_meaning.specs.Evaluating.{class_ref};
ghost use Rattle.lower_code.specs.Scopes.{hidden};
ghost use Rattle.lower_code.specs.Lowering as l;
ghost use Rattle.lower_lookup.specs.Types.{differ_of};
ghost use Rattle.lower_expr.specs.Endings.{ending_code};
ghost use Rattle.lower_declared.specs.Views.{field_now};
ghost use Rattle.lower_values.specs.Parts.{given_code};

use lower_code::arounds::Around;
use lower_declared::fields::given_local;
use lower_expr::builder::Builder;
use lower_expr::endings::Ending;
use lower_expr::scopes::{Scopes, Slot};
use lower_items::tables::Tables;
use lower_lookup::names::class_at;
use lower_parts::lowering::Lowering;
use verse_base::places::Place;
use verse_base::refusals::Memory;
use verse_code::operations::Op;
use verse_tree::exprs::{Expr, Given};
use verse_tree::items::Field;

fn value(given: &Given) -> &Expr
    ensures { tree_of result.now ≡ (given_of given.now).1 }
{
    given.value.get()
}

/// The value of a field, which goes into a local.
fn given<
    'a,
    F: Fn(
        &'a Tables<'a>,
        u32,
        &mut Builder,
        &mut Scopes<'a>,
        Around,
        &'a Expr,
    ) -> Result<(), Memory>,
>(
    lowering: &Lowering<'a, F>,
    builder: &mut Builder,
    scopes: &mut Scopes<'a>,
    around: Around,
    part: &'a Given,
) -> Result<(), Memory>
    requires nests { Lowers lowering.now.depth (F.pre lowering.now.nested)
        (F.post lowering.now.nested) }
    ensures code { OnOk result (built builder.new ≡ made (given_code
        lowering.now.tables.now.program.now (given_of part.now).1 (scope_of scopes.old) around)
        (built builder.old)) }
    ensures scopes { OnOk result (scope_of scopes.new ≡ hidden ∷ scope_of scopes.old) }
{
    lowering.part(builder, scopes, around, value(part))?;
    let local = scopes.count()?;
    builder.put_away(local)?;
    scopes.add(Slot::Hidden)?;
    Ok(())
}

/// The values of the fields that are given, each in a local.
fn all<
    'a,
    F: Fn(
        &'a Tables<'a>,
        u32,
        &mut Builder,
        &mut Scopes<'a>,
        Around,
        &'a Expr,
    ) -> Result<(), Memory>,
>(
    lowering: &Lowering<'a, F>,
    builder: &mut Builder,
    scopes: &mut Scopes<'a>,
    around: Around,
    parts: &'a [Given],
) -> Result<(), Memory>
    requires nests { Lowers lowering.now.depth (F.pre lowering.now.nested)
        (F.post lowering.now.nested) }
    ensures code { OnOk result (built builder.new ≡ made (l.given_args (p.program_of
        lowering.now.tables.now.program.now) (differ_of lowering.now.tables.now.program.now)
        (givens (map given_of parts.now)) (scope_of scopes.old) around) (built builder.old)) }
    ensures scopes { OnOk result (Grown (scope_of scopes.old) (scope_of scopes.new)) }
{
    'parts: for part in parts {
        given(lowering, builder, scopes, around, part)?;
    }
    Ok(())
}

/// What gives a field its default.
fn default(tables: &Tables<'_>, field: &Field) -> Result<Ending, Memory>
    ensures { IfOk result (λ ending. ending_code ending ≡ l.default_op (p.program_of
        tables.now.program.now)
        (differ_of tables.now.program.now) (field_of field.now).default (field_of
        field.now).number) }
{
    match &field.default {
        None => Ok(Ending::Stuck),
        Some(_) => Ok(Ending::One(Op::Call(tables.default_number(field.node)?))),
    }
}

/// The value of a field where those that are given lie in locals from `first` on.
fn field(tables: &Tables<'_>, field: &Field, parts: &[Given], first: u32) -> Result<Ending, Memory>
    ensures { IfOk result (λ ending. ending_code ending ≡ l.field_op (p.program_of
        tables.now.program.now)
        (differ_of tables.now.program.now) (l.given_local (field_of field.now).name (givens (map
        given_of parts.now)) first)
        (field_of field.now).default (field_of field.now).number) }
{
    match given_local(parts, field.name.as_slice(), first)? {
        Some(local) => Ok(Ending::One(Op::Get(local))),
        None => default(tables, field),
    }
}

/// The values of all fields of a class.
fn fields(
    tables: &Tables<'_>,
    builder: &mut Builder,
    class: u32,
    parts: &[Given],
    first: u32,
) -> Result<(), Memory>
    ensures { OnOk result (built builder.new ≡ made (l.field_ops (p.program_of
        tables.now.program.now)
        (differ_of tables.now.program.now) (p.fields_of (p.program_of tables.now.program.now)
        class)
        (givens (map given_of parts.now)) first) (built builder.old)) }
{
    let all = tables.fields_of(class)?;
    'fields: for item in &all {
        let ending = field(tables, *item, parts, first)?;
        builder.ending(ending)?;
    }
    Ok(())
}

/// An instance of the class of a number.
fn of_class<
    'a,
    F: Fn(
        &'a Tables<'a>,
        u32,
        &mut Builder,
        &mut Scopes<'a>,
        Around,
        &'a Expr,
    ) -> Result<(), Memory>,
>(
    lowering: &Lowering<'a, F>,
    builder: &mut Builder,
    scopes: &mut Scopes<'a>,
    around: Around,
    place: Place,
    class: u32,
    parts: &'a [Given],
) -> Result<(), Memory>
    requires nests { Lowers lowering.now.depth (F.pre lowering.now.nested)
        (F.post lowering.now.nested) }
    ensures code { OnOk result (built builder.new ≡ made (l.instance_of (p.program_of
        lowering.now.tables.now.program.now) (differ_of lowering.now.tables.now.program.now) (Some
        class) place (givens (map given_of parts.now)) (length (scope_of scopes.old))
        (l.given_args (p.program_of lowering.now.tables.now.program.now) (differ_of
        lowering.now.tables.now.program.now) (givens (map given_of parts.now)) (scope_of
        scopes.old) around)) (built builder.old)) }
    ensures scopes { OnOk result (scope_of scopes.new ≡ scope_of scopes.old) }
{
    let first = scopes.count()?;
    all(lowering, builder, scopes, around, parts)?;
    scopes.cut(first);
    fields(lowering.tables, builder, class, parts, first)?;
    builder.placed(place, Op::Object(class, 0))?;
    Ok(())
}

/// `c{F := E}`
#[tactic(auto, using(crate::proofs::Fields::class_none))]
pub fn instance<
    'a,
    F: Fn(
        &'a Tables<'a>,
        u32,
        &mut Builder,
        &mut Scopes<'a>,
        Around,
        &'a Expr,
    ) -> Result<(), Memory>,
>(
    lowering: &Lowering<'a, F>,
    builder: &mut Builder,
    scopes: &mut Scopes<'a>,
    around: Around,
    node: u32,
    place: Place,
    parts: &'a [Given],
) -> Result<(), Memory>
    requires nests { Lowers lowering.now.depth (F.pre lowering.now.nested)
        (F.post lowering.now.nested) }
    ensures code { OnOk result (built builder.new ≡ made (l.instance_of (p.program_of
        lowering.now.tables.now.program.now) (differ_of lowering.now.tables.now.program.now)
        (class_ref (p.program_of lowering.now.tables.now.program.now) (p.ref_at (p.program_of
        lowering.now.tables.now.program.now) node)) place (givens (map given_of parts.now))
        (length (scope_of scopes.old)) (l.given_args (p.program_of
        lowering.now.tables.now.program.now) (differ_of lowering.now.tables.now.program.now)
        (givens (map given_of parts.now)) (scope_of scopes.old) around)) (built builder.old)) }
    ensures scopes { OnOk result (scope_of scopes.new ≡ scope_of scopes.old) }
{
    match class_at(lowering.tables.program, node) {
        None => builder.stuck(),
        Some(class) => of_class(lowering, builder, scopes, around, place, class, parts),
    }
}
