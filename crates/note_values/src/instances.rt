//! Instances of classes.

ghost use Rattle.std.specs.Prelude.{◌≡◌, ◌∷◌, map, OnOk, Some, length};
ghost use Rattle.verse_tree.specs.View.{tree_of, given_of, givens};
ghost use Rattle.lower_notes.specs.Noting as n;
ghost use Rattle.note_sorts.specs.Tabled.{found_of};
ghost use Rattle.note_stretches.specs.Noted.{noted, walked};
ghost use Rattle.lower_expr.specs.Locals.{scope_of};
ghost use Rattle.note_parts.specs.Parts.{Notes};
ghost use Rattle.verse_tree.specs.ItemView.{field_of};
ghost use Rattle.verse_meaning.specs.Programs as p;
ghost use Rattle.verse_meaning.specs.Evaluating.{class_ref};
ghost use Rattle.lower_code.specs.Scopes.{hidden};
ghost use Rattle.lower_code.specs.Lowering as l;
ghost use Rattle.lower_lookup.specs.Types.{differ_of};
ghost use Rattle.lower_parts.specs.Parts.{Grown};
ghost use Rattle.note_values.specs.Parts.{given_walk};

use lower_code::arounds::Around;
use lower_declared::fields::given_local;
use lower_expr::scopes::{Scopes, Slot};
use lower_items::tables::Tables;
use lower_lookup::names::class_at;
use note_parts::noter::{Noter, number_of};
use note_sorts::kinds::Kind;
use note_stretches::noting::Noting;
use verse_base::refusals::Memory;
use verse_tree::exprs::{Expr, Given};
use verse_tree::items::Field;
use verse_tree::programs::Program;

fn value(given: &Given) -> &Expr
    ensures { tree_of result.now ≡ (given_of given.now).1 }
{
    given.value.get()
}

/// The value of a field, which goes into a local.
#[tactic(auto, using(note_stretches::proofs::Laws::walked_then))]
fn given<
    'a,
    F: Fn(
        &'a Tables<'a>,
        u32,
        &mut Noting,
        &mut Scopes<'a>,
        Around,
        &'a Expr,
    ) -> Result<(), Memory>,
>(
    noter: &Noter<'a, F>,
    noting: &mut Noting,
    scopes: &mut Scopes<'a>,
    around: Around,
    part: &'a Given,
) -> Result<(), Memory>
    requires nests { Notes noter.now.depth (F.pre noter.now.nested)
        (F.post noter.now.nested) }
    ensures states { OnOk result (noted noting.new ≡ walked (given_walk
        noter.now.tables.now.program.now (given_of part.now).1 (scope_of scopes.old) around)
        (noted noting.old)) }
    ensures scopes { OnOk result (scope_of scopes.new ≡ hidden ∷ scope_of scopes.old) }
{
    noter.part(noting, scopes, around, value(part))?;
    let local = scopes.count()?;
    noting.put(
        noter.tables.program,
        local,
        Kind::Node(number_of(value(part))),
    )?;
    scopes.add(Slot::Hidden)?;
    Ok(())
}

/// The values of the fields that are given, each in a local.
fn all<
    'a,
    F: Fn(
        &'a Tables<'a>,
        u32,
        &mut Noting,
        &mut Scopes<'a>,
        Around,
        &'a Expr,
    ) -> Result<(), Memory>,
>(
    noter: &Noter<'a, F>,
    noting: &mut Noting,
    scopes: &mut Scopes<'a>,
    around: Around,
    parts: &'a [Given],
) -> Result<(), Memory>
    requires nests { Notes noter.now.depth (F.pre noter.now.nested)
        (F.post noter.now.nested) }
    ensures states { OnOk result (noted noting.new ≡ walked (n.given_args
        (p.program_of noter.now.tables.now.program.now) (found_of
        noter.now.tables.now.program.now) (differ_of noter.now.tables.now.program.now)
        (givens (map given_of parts.now)) (scope_of scopes.old) around) (noted noting.old)) }
    ensures scopes { OnOk result (Grown (scope_of scopes.old) (scope_of scopes.new)) }
{
    'parts: for part in parts {
        given(noter, noting, scopes, around, part)?;
    }
    Ok(())
}

/// The default of a field.
fn default(noting: &mut Noting, program: &Program, field: &Field) -> Result<(), Memory>
    ensures { OnOk result (noted noting.new ≡ walked (n.default_walk (p.program_of program.now)
        (found_of program.now) (differ_of program.now) (field_of field.now).default)
        (noted noting.old)) }
{
    match &field.default {
        None => noting.ends(),
        Some(value) => noting.push(program, Kind::Node(number_of(value.get()))),
    }
}

/// The value of a field where those that are given lie in locals from `first` on.
fn field(
    noting: &mut Noting,
    program: &Program,
    field: &Field,
    parts: &[Given],
    first: u32,
) -> Result<(), Memory>
    ensures { OnOk result (noted noting.new ≡ walked (n.field_walk (p.program_of program.now)
        (found_of program.now) (differ_of program.now) (l.given_local (field_of field.now).name
        (givens (map given_of parts.now)) first) (field_of field.now).default)
        (noted noting.old)) }
{
    match given_local(parts, field.name.as_slice(), first)? {
        Some(local) => noting.get(local),
        None => default(noting, program, field),
    }
}

/// The values of all fields of a class.
fn fields(
    tables: &Tables<'_>,
    noting: &mut Noting,
    class: u32,
    parts: &[Given],
    first: u32,
) -> Result<(), Memory>
    ensures { OnOk result (noted noting.new ≡ walked (n.field_walks (p.program_of
        tables.now.program.now) (found_of tables.now.program.now)
        (differ_of tables.now.program.now) (p.fields_of (p.program_of tables.now.program.now)
        class)
        (givens (map given_of parts.now)) first) (noted noting.old)) }
{
    let all = tables.fields_of(class)?;
    'fields: for item in &all {
        field(noting, tables.program, *item, parts, first)?;
    }
    Ok(())
}

/// An instance of the class of a number.
fn of_class<
    'a,
    F: Fn(
        &'a Tables<'a>,
        u32,
        &mut Noting,
        &mut Scopes<'a>,
        Around,
        &'a Expr,
    ) -> Result<(), Memory>,
>(
    noter: &Noter<'a, F>,
    noting: &mut Noting,
    scopes: &mut Scopes<'a>,
    around: Around,
    class: u32,
    parts: &'a [Given],
) -> Result<(), Memory>
    requires nests { Notes noter.now.depth (F.pre noter.now.nested)
        (F.post noter.now.nested) }
    ensures states { OnOk result (noted noting.new ≡ walked (n.instance_of
        (p.program_of noter.now.tables.now.program.now) (found_of
        noter.now.tables.now.program.now) (differ_of noter.now.tables.now.program.now)
        (Some class) (givens (map given_of parts.now)) (length (scope_of scopes.old))
        (n.given_args (p.program_of noter.now.tables.now.program.now)
        (found_of noter.now.tables.now.program.now) (differ_of
        noter.now.tables.now.program.now) (givens (map given_of parts.now)) (scope_of
        scopes.old) around)) (noted noting.old)) }
    ensures scopes { OnOk result (scope_of scopes.new ≡ scope_of scopes.old) }
{
    let first = scopes.count()?;
    all(noter, noting, scopes, around, parts)?;
    scopes.cut(first);
    fields(noter.tables, noting, class, parts, first)?;
    noting.last()?;
    Ok(())
}

/// `c{F := E}`
#[tactic(auto, using(crate::proofs::Fields::class_none))]
pub fn instance<
    'a,
    F: Fn(
        &'a Tables<'a>,
        u32,
        &mut Noting,
        &mut Scopes<'a>,
        Around,
        &'a Expr,
    ) -> Result<(), Memory>,
>(
    noter: &Noter<'a, F>,
    noting: &mut Noting,
    scopes: &mut Scopes<'a>,
    around: Around,
    node: u32,
    parts: &'a [Given],
) -> Result<(), Memory>
    requires nests { Notes noter.now.depth (F.pre noter.now.nested)
        (F.post noter.now.nested) }
    ensures states { OnOk result (noted noting.new ≡ walked (n.instance_of
        (p.program_of noter.now.tables.now.program.now) (found_of
        noter.now.tables.now.program.now) (differ_of noter.now.tables.now.program.now)
        (class_ref (p.program_of noter.now.tables.now.program.now) (p.ref_at (p.program_of
        noter.now.tables.now.program.now) node)) (givens (map given_of parts.now))
        (length (scope_of scopes.old)) (n.given_args (p.program_of
        noter.now.tables.now.program.now) (found_of noter.now.tables.now.program.now)
        (differ_of noter.now.tables.now.program.now)
        (givens (map given_of parts.now)) (scope_of scopes.old) around)) (noted noting.old)) }
    ensures scopes { OnOk result (scope_of scopes.new ≡ scope_of scopes.old) }
{
    match class_at(noter.tables.program, node) {
        None => noting.ends(),
        Some(class) => of_class(noter, noting, scopes, around, class, parts),
    }
}
