//! Texts with holes.

ghost use Rattle.std.specs.Prelude.{◌≡◌, map, OnOk, IfOk};
ghost use Rattle.verse_tree.specs.View.{tree_of, hole_of, holes};
ghost use Rattle.verse_tree.specs.Tree as t;
ghost use Rattle.lower_notes.specs.Noting as n;
ghost use Rattle.note_sorts.specs.Tabled.{found_of};
ghost use Rattle.note_stretches.specs.Noted.{noted, walked};
ghost use Rattle.lower_expr.specs.Locals.{scope_of};
ghost use Rattle.note_parts.specs.Parts.{form_walk, Notes, no_place};
ghost use Rattle.verse_meaning.specs.Programs.{program_of};
ghost use Rattle.lower_code.specs.Arounds as a;
ghost use Rattle.lower_code.specs.Lowering as l;
ghost use Rattle.lower_lookup.specs.Types.{differ_of};
ghost use Rattle.note_values.specs.Parts.{hole_walk};

use lower_code::arounds::Around;
use lower_expr::scopes::Scopes;
use lower_items::tables::Tables;
use note_parts::noter::Noter;
use note_stretches::noting::Noting;
use verse_base::refusals::Memory;
use verse_tree::exprs::{Expr, Hole};

/// Whether a piece of a text is there.
#[tactic(auto, using(lower_parts::proofs::Facts::some_text, lower_parts::proofs::Facts::none_text))]
fn is_text(text: &[u8]) -> bool
    ensures { result ≡ l.is_text text.now }
{
    !text.is_empty()
}

/// Above a piece, where there is one.
fn above(is_text: bool, around: Around) -> Result<Around, Memory>
    ensures { IfOk result (λ r. r ≡ a.raised (l.one_if is_text 0) around) }
{
    if is_text {
        return around.up();
    }
    Ok(around)
}

fn value(hole: &Hole) -> &Expr
    ensures { tree_of result.now ≡ (hole_of hole.now).0 }
{
    hole.value.get()
}

fn behind(hole: &Hole) -> &[u8]
    ensures { result.now ≡ (hole_of hole.now).1 }
{
    hole.behind.as_slice()
}

/// A hole, and the piece of text behind it.
#[tactic(auto, using(note_stretches::proofs::Laws::walked_then))]
fn hole<
    'a,
    F: Fn(
        &'a Tables<'a>,
        u32,
        &mut Noting,
        &mut Scopes<'a>,
        Around,
        &'a Expr,
    ) -> Result<(), Memory>,
>(
    noter: &Noter<'a, F>,
    noting: &mut Noting,
    scopes: &mut Scopes<'a>,
    around: Around,
    hole: &'a Hole,
) -> Result<(), Memory>
    requires nests { Notes noter.now.depth (F.pre noter.now.nested)
        (F.post noter.now.nested) }
    ensures states { OnOk result (noted noting.new ≡ walked (hole_walk
        noter.now.tables.now.program.now (hole_of hole.now) (scope_of scopes.old) around)
        (noted noting.old)) }
    ensures scopes { OnOk result (scope_of scopes.new ≡ scope_of scopes.old) }
{
    noter.part(noting, scopes, around, value(hole))?;
    noting.text_if(noter.tables.program, behind(hole))?;
    Ok(())
}

/// The holes, with the pieces of text behind them.
fn all<
    'a,
    F: Fn(
        &'a Tables<'a>,
        u32,
        &mut Noting,
        &mut Scopes<'a>,
        Around,
        &'a Expr,
    ) -> Result<(), Memory>,
>(
    noter: &Noter<'a, F>,
    noting: &mut Noting,
    scopes: &mut Scopes<'a>,
    around: Around,
    parts: &'a [Hole],
) -> Result<(), Memory>
    requires nests { Notes noter.now.depth (F.pre noter.now.nested)
        (F.post noter.now.nested) }
    ensures states { OnOk result (noted noting.new ≡ walked (n.holed
        (program_of noter.now.tables.now.program.now) (found_of noter.now.tables.now.program.now)
        (differ_of noter.now.tables.now.program.now)
        (holes (map hole_of parts.now)) (scope_of scopes.old) around) (noted noting.old)) }
    ensures scopes { OnOk result (scope_of scopes.new ≡ scope_of scopes.old) }
{
    let mut here = around;
    'parts: for part in parts {
        hole(noter, noting, scopes, here, part)?;
        let next = is_text(behind(part));
        here = above(next, here.up()?)?;
    }
    Ok(())
}

/// A text with holes.
#[tactic(auto, using(note_stretches::proofs::Laws::walked_then))]
pub fn text<
    'a,
    F: Fn(
        &'a Tables<'a>,
        u32,
        &mut Noting,
        &mut Scopes<'a>,
        Around,
        &'a Expr,
    ) -> Result<(), Memory>,
>(
    noter: &Noter<'a, F>,
    noting: &mut Noting,
    scopes: &mut Scopes<'a>,
    around: Around,
    first: &'a [u8],
    parts: &'a [Hole],
) -> Result<(), Memory>
    requires nests { Notes noter.now.depth (F.pre noter.now.nested)
        (F.post noter.now.nested) }
    ensures states { OnOk result (noted noting.new ≡ walked (form_walk
        noter.now.tables.now.program.now (t.Shape.holes first.now (holes (map hole_of
        parts.now))) 0 no_place (scope_of scopes.old) around) (noted noting.old)) }
    ensures scopes { OnOk result (scope_of scopes.new ≡ scope_of scopes.old) }
{
    let begins = is_text(first);
    noting.text_if(noter.tables.program, first)?;
    let here = above(begins, around)?;
    all(noter, noting, scopes, here, parts)?;
    noting.last()?;
    Ok(())
}
