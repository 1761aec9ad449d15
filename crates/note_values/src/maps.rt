//! Maps.

ghost use Rattle.std.specs.Prelude.{◌≡◌, map, OnOk};
ghost use Rattle.verse_tree.specs.View.{tree_of, pair_of, pairs};
ghost use Rattle.verse_tree.specs.Tree as t;
ghost use Rattle.lower_notes.specs.Noting as n;
ghost use Rattle.note_sorts.specs.Tabled.{found_of};
ghost use Rattle.note_stretches.specs.Noted.{noted, walked};
ghost use Rattle.lower_expr.specs.Locals.{scope_of};
ghost use Rattle.note_parts.specs.Parts.{form_walk, Notes, no_place};
ghost use Rattle.verse_meaning.specs.Programs.{program_of};
ghost use Rattle.lower_lookup.specs.Types.{differ_of};
ghost use Rattle.note_values.specs.Parts.{pair_walk};

use lower_code::arounds::Around;
use lower_expr::scopes::Scopes;
use lower_items::tables::Tables;
use note_parts::noter::Noter;
use note_sorts::kinds::Kind;
use note_stretches::noting::Noting;
use verse_base::refusals::Memory;
use verse_tree::exprs::{Expr, Pair};

fn key(pair: &Pair) -> &Expr
    ensures { tree_of result.now ≡ (pair_of pair.now).0 }
{
    pair.key.get()
}

fn value(pair: &Pair) -> &Expr
    ensures { tree_of result.now ≡ (pair_of pair.now).1 }
{
    pair.value.get()
}

/// A key and its value.
#[tactic(auto, using(note_stretches::proofs::Laws::walked_then, note_stretches::proofs::Laws::walked_widened))]
fn pair<
    'a,
    F: Fn(
        &'a Tables<'a>,
        u32,
        &mut Noting,
        &mut Scopes<'a>,
        Around,
        &'a Expr,
    ) -> Result<(), Memory>,
>(
    noter: &Noter<'a, F>,
    noting: &mut Noting,
    scopes: &mut Scopes<'a>,
    around: Around,
    node: u32,
    parts: &'a Pair,
) -> Result<(), Memory>
    requires nests { Notes noter.now.depth (F.pre noter.now.nested)
        (F.post noter.now.nested) }
    ensures states { OnOk result (noted noting.new ≡ walked (pair_walk
        noter.now.tables.now.program.now (n.key_in ((found_of
        noter.now.tables.now.program.now).sort node))
        (pair_of parts.now) (scope_of scopes.old) around)
        (noted noting.old)) }
    ensures scopes { OnOk result (scope_of scopes.new ≡ scope_of scopes.old) }
{
    noter.part(noting, scopes, around, key(parts))?;
    noting.gives(noter.tables.program, 1, Kind::KeysOf(node))?;
    let above = around.up()?;
    noter.part(noting, scopes, above, value(parts))?;
    Ok(())
}

/// The keys with their values.
fn all<
    'a,
    F: Fn(
        &'a Tables<'a>,
        u32,
        &mut Noting,
        &mut Scopes<'a>,
        Around,
        &'a Expr,
    ) -> Result<(), Memory>,
>(
    noter: &Noter<'a, F>,
    noting: &mut Noting,
    scopes: &mut Scopes<'a>,
    around: Around,
    node: u32,
    parts: &'a [Pair],
) -> Result<(), Memory>
    requires nests { Notes noter.now.depth (F.pre noter.now.nested)
        (F.post noter.now.nested) }
    ensures states { OnOk result (noted noting.new ≡ walked (n.paired_args
        (program_of noter.now.tables.now.program.now) (found_of noter.now.tables.now.program.now)
        (differ_of noter.now.tables.now.program.now)
        (n.key_in ((found_of noter.now.tables.now.program.now).sort node)) (pairs
        (map pair_of parts.now)) (scope_of scopes.old) around) (noted noting.old)) }
    ensures scopes { OnOk result (scope_of scopes.new ≡ scope_of scopes.old) }
{
    let mut here = around;
    'parts: for part in parts {
        pair(noter, noting, scopes, here, node, part)?;
        let above = here.up()?;
        here = above.up()?;
    }
    Ok(())
}

/// `map{E => F}`
pub fn map<
    'a,
    F: Fn(
        &'a Tables<'a>,
        u32,
        &mut Noting,
        &mut Scopes<'a>,
        Around,
        &'a Expr,
    ) -> Result<(), Memory>,
>(
    noter: &Noter<'a, F>,
    noting: &mut Noting,
    scopes: &mut Scopes<'a>,
    around: Around,
    node: u32,
    parts: &'a [Pair],
) -> Result<(), Memory>
    requires nests { Notes noter.now.depth (F.pre noter.now.nested)
        (F.post noter.now.nested) }
    ensures states { OnOk result (noted noting.new ≡ walked (form_walk
        noter.now.tables.now.program.now (t.Shape.mapping (pairs (map pair_of parts.now)))
        node no_place (scope_of scopes.old) around) (noted noting.old)) }
    ensures scopes { OnOk result (scope_of scopes.new ≡ scope_of scopes.old) }
{
    all(noter, noting, scopes, around, node, parts)?;
    noting.last()?;
    Ok(())
}
