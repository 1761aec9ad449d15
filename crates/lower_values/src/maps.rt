//! Maps.

ghost use Rattle.std.specs.Prelude.{◌≡◌, map, OnOk};
ghost use Rattle.verse_tree.specs.View.{tree_of, pair_of, pairs};
ghost use Rattle.verse_tree.specs.Tree as t;
ghost use Rattle.lower_expr.specs.Building.{built, made};
ghost use Rattle.lower_expr.specs.Locals.{scope_of};
ghost use Rattle.lower_parts.specs.Parts.{form_code, Lowers};
ghost use Rattle.verse_meaning.specs.Programs.{program_of};
ghost use Rattle.lower_code.specs.Lowering as l;
ghost use Rattle.lower_lookup.specs.Types.{differ_of};
ghost use Rattle.lower_values.specs.Parts.{pair_code};

use lower_code::arounds::Around;
use lower_declared::numbers::number_of;
use lower_expr::builder::Builder;
use lower_expr::scopes::Scopes;
use lower_items::tables::Tables;
use lower_parts::lowering::Lowering;
use verse_base::places::Place;
use verse_base::refusals::Memory;
use verse_code::operations::Op;
use verse_tree::exprs::{Expr, Pair};

fn key(pair: &Pair) -> &Expr
    ensures { tree_of result.now ≡ (pair_of pair.now).0 }
{
    pair.key.get()
}

fn value(pair: &Pair) -> &Expr
    ensures { tree_of result.now ≡ (pair_of pair.now).1 }
{
    pair.value.get()
}

/// A key and its value.
fn pair<
    'a,
    F: Fn(
        &'a Tables<'a>,
        u32,
        &mut Builder,
        &mut Scopes<'a>,
        Around,
        &'a Expr,
    ) -> Result<(), Memory>,
>(
    lowering: &Lowering<'a, F>,
    builder: &mut Builder,
    scopes: &mut Scopes<'a>,
    around: Around,
    parts: &'a Pair,
) -> Result<(), Memory>
    requires nests { Lowers lowering.now.depth (F.pre lowering.now.nested)
        (F.post lowering.now.nested) }
    ensures code { OnOk result (built builder.new ≡ made (pair_code
        lowering.now.tables.now.program.now (pair_of parts.now) (scope_of scopes.old) around)
        (built builder.old)) }
    ensures scopes { OnOk result (scope_of scopes.new ≡ scope_of scopes.old) }
{
    lowering.part(builder, scopes, around, key(parts))?;
    let above = around.up()?;
    lowering.part(builder, scopes, above, value(parts))?;
    Ok(())
}

/// The keys with their values.
fn all<
    'a,
    F: Fn(
        &'a Tables<'a>,
        u32,
        &mut Builder,
        &mut Scopes<'a>,
        Around,
        &'a Expr,
    ) -> Result<(), Memory>,
>(
    lowering: &Lowering<'a, F>,
    builder: &mut Builder,
    scopes: &mut Scopes<'a>,
    around: Around,
    parts: &'a [Pair],
) -> Result<(), Memory>
    requires nests { Lowers lowering.now.depth (F.pre lowering.now.nested)
        (F.post lowering.now.nested) }
    ensures code { OnOk result (built builder.new ≡ made (l.paired_args (program_of
        lowering.now.tables.now.program.now) (differ_of lowering.now.tables.now.program.now)
        (pairs (map pair_of parts.now)) (scope_of scopes.old) around) (built builder.old)) }
    ensures scopes { OnOk result (scope_of scopes.new ≡ scope_of scopes.old) }
{
    let mut here = around;
    'parts: for part in parts {
        pair(lowering, builder, scopes, here, part)?;
        let above = here.up()?;
        here = above.up()?;
    }
    Ok(())
}

/// `map{E => F}`
pub fn map<
    'a,
    F: Fn(
        &'a Tables<'a>,
        u32,
        &mut Builder,
        &mut Scopes<'a>,
        Around,
        &'a Expr,
    ) -> Result<(), Memory>,
>(
    lowering: &Lowering<'a, F>,
    builder: &mut Builder,
    scopes: &mut Scopes<'a>,
    around: Around,
    place: Place,
    parts: &'a [Pair],
) -> Result<(), Memory>
    requires nests { Lowers lowering.now.depth (F.pre lowering.now.nested)
        (F.post lowering.now.nested) }
    ensures code { OnOk result (built builder.new ≡ made (form_code
        lowering.now.tables.now.program.now (t.Shape.mapping (pairs (map pair_of parts.now))) 0
        place (scope_of scopes.old) around) (built builder.old)) }
    ensures scopes { OnOk result (scope_of scopes.new ≡ scope_of scopes.old) }
{
    let count = number_of(parts.len())?;
    all(lowering, builder, scopes, around, parts)?;
    builder.placed(place, Op::Map(count, 0))?;
    Ok(())
}
