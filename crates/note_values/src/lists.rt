//! Tuples and arrays.

ghost use Rattle.std.specs.Prelude.{◌≡◌, map, OnOk};
ghost use Rattle.verse_tree.specs.View.{tree_of, trees};
ghost use Rattle.verse_tree.specs.Tree as t;
ghost use Rattle.lower_expr.specs.Locals.{scope_of};
ghost use Rattle.note_stretches.specs.Noted.{noted, walked};
ghost use Rattle.note_parts.specs.Parts.{form_walk, no_place, Notes};

use lower_code::arounds::Around;
use lower_expr::scopes::Scopes;
use lower_items::tables::Tables;
use note_parts::noter::Noter;
use note_stretches::noting::Noting;
use verse_base::refusals::Memory;
use verse_tree::exprs::Expr;

/// `(E, F)`
#[tactic(auto, using(note_stretches::proofs::Laws::walked_then))]
pub fn tuple<
    'a,
    F: Fn(
        &'a Tables<'a>,
        u32,
        &mut Noting,
        &mut Scopes<'a>,
        Around,
        &'a Expr,
    ) -> Result<(), Memory>,
>(
    noter: &Noter<'a, F>,
    noting: &mut Noting,
    scopes: &mut Scopes<'a>,
    around: Around,
    parts: &'a [Expr],
) -> Result<(), Memory>
    requires nests { Notes noter.now.depth (F.pre noter.now.nested)
        (F.post noter.now.nested) }
    ensures states { OnOk result (noted noting.new ≡ walked (form_walk
        noter.now.tables.now.program.now (t.Shape.tuple (trees (map tree_of parts.now))) 0 no_place
        (scope_of scopes.old) around) (noted noting.old)) }
    ensures scopes { OnOk result (scope_of scopes.new ≡ scope_of scopes.old) }
{
    noter.operands(noting, scopes, around, parts)?;
    noting.last()?;
    Ok(())
}

/// `array{E, F}`
#[tactic(auto, using(note_stretches::proofs::Laws::walked_then))]
pub fn array<
    'a,
    F: Fn(
        &'a Tables<'a>,
        u32,
        &mut Noting,
        &mut Scopes<'a>,
        Around,
        &'a Expr,
    ) -> Result<(), Memory>,
>(
    noter: &Noter<'a, F>,
    noting: &mut Noting,
    scopes: &mut Scopes<'a>,
    around: Around,
    parts: &'a [Expr],
) -> Result<(), Memory>
    requires nests { Notes noter.now.depth (F.pre noter.now.nested)
        (F.post noter.now.nested) }
    ensures states { OnOk result (noted noting.new ≡ walked (form_walk
        noter.now.tables.now.program.now (t.Shape.array (trees (map tree_of parts.now))) 0 no_place
        (scope_of scopes.old) around) (noted noting.old)) }
    ensures scopes { OnOk result (scope_of scopes.new ≡ scope_of scopes.old) }
{
    noter.operands(noting, scopes, around, parts)?;
    noting.last()?;
    Ok(())
}
