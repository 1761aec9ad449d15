//! Texts with holes.

ghost use Rattle.std.specs.Prelude.{◌≡◌, map, Bool, OnOk, IfOk};
ghost use Rattle.verse_tree.specs.View.{tree_of, hole_of, holes};
ghost use Rattle.verse_tree.specs.Tree as t;
ghost use Rattle.lower_expr.specs.Building.{built, made};
ghost use Rattle.lower_expr.specs.Locals.{scope_of};
ghost use Rattle.lower_parts.specs.Parts.{form_code, Lowers};
ghost use Rattle.verse_meaning.specs.Programs.{program_of};
ghost use Rattle.lower_code.specs.Arounds as a;
ghost use Rattle.lower_code.specs.Lowering as l;
ghost use Rattle.lower_lookup.specs.Types.{differ_of};
ghost use Rattle.lower_values.specs.Parts.{hole_code};

use lower_code::arounds::Around;
use lower_declared::numbers::further;
use lower_expr::builder::Builder;
use lower_expr::scopes::Scopes;
use lower_items::tables::Tables;
use lower_parts::lowering::Lowering;
use verse_base::places::Place;
use verse_base::refusals::Memory;
use verse_code::operations::Op;
use verse_tree::exprs::{Expr, Hole};

/// Whether a piece of a text is there.
#[tactic(auto, using(lower_parts::proofs::Facts::some_text, lower_parts::proofs::Facts::none_text))]
fn is_text(text: &[u8]) -> bool
    ensures { result ≡ l.is_text text.now }
{
    !text.is_empty()
}

/// One more where there is a piece.
fn counted(is_text: bool, count: u32) -> Result<u32, Memory>
    ensures { IfOk result (λ n. n ≡ l.one_if is_text count) }
{
    if is_text {
        return further(count);
    }
    Ok(count)
}

/// Above a piece, where there is one.
fn above(is_text: bool, around: Around) -> Result<Around, Memory>
    ensures { IfOk result (λ r. r ≡ a.raised (l.one_if is_text 0) around) }
{
    if is_text {
        return around.up();
    }
    Ok(around)
}

fn value(hole: &Hole) -> &Expr
    ensures { tree_of result.now ≡ (hole_of hole.now).0 }
{
    hole.value.get()
}

fn behind(hole: &Hole) -> &[u8]
    ensures { result.now ≡ (hole_of hole.now).1 }
{
    hole.behind.as_slice()
}

/// A hole, and the piece of text behind it.
fn hole<
    'a,
    F: Fn(
        &'a Tables<'a>,
        u32,
        &mut Builder,
        &mut Scopes<'a>,
        Around,
        &'a Expr,
    ) -> Result<(), Memory>,
>(
    lowering: &Lowering<'a, F>,
    builder: &mut Builder,
    scopes: &mut Scopes<'a>,
    around: Around,
    hole: &'a Hole,
) -> Result<(), Memory>
    requires nests { Lowers lowering.now.depth (F.pre lowering.now.nested)
        (F.post lowering.now.nested) }
    ensures code { OnOk result (built builder.new ≡ made (hole_code
        lowering.now.tables.now.program.now (hole_of hole.now) (scope_of scopes.old) around)
        (built builder.old)) }
    ensures scopes { OnOk result (scope_of scopes.new ≡ scope_of scopes.old) }
{
    lowering.part(builder, scopes, around, value(hole))?;
    builder.text_if(behind(hole))?;
    Ok(())
}

/// The holes, with the pieces of text behind them; how many values these are.
fn all<
    'a,
    F: Fn(
        &'a Tables<'a>,
        u32,
        &mut Builder,
        &mut Scopes<'a>,
        Around,
        &'a Expr,
    ) -> Result<(), Memory>,
>(
    lowering: &Lowering<'a, F>,
    builder: &mut Builder,
    scopes: &mut Scopes<'a>,
    around: Around,
    parts: &'a [Hole],
) -> Result<u32, Memory>
    requires nests { Lowers lowering.now.depth (F.pre lowering.now.nested)
        (F.post lowering.now.nested) }
    ensures code { OnOk result (built builder.new ≡ made (l.holed (program_of
        lowering.now.tables.now.program.now) (differ_of lowering.now.tables.now.program.now)
        (holes (map hole_of parts.now)) (scope_of scopes.old) around) (built builder.old)) }
    ensures count { IfOk result (λ n. n ≡ l.joined_parts (holes (map hole_of parts.now))) }
    ensures scopes { OnOk result (scope_of scopes.new ≡ scope_of scopes.old) }
{
    let mut count = 0u32;
    let mut here = around;
    'parts: for part in parts {
        hole(lowering, builder, scopes, here, part)?;
        let next = is_text(behind(part));
        here = above(next, here.up()?)?;
        count = counted(next, further(count)?)?;
    }
    Ok(count)
}

/// A text with holes.
pub fn text<
    'a,
    F: Fn(
        &'a Tables<'a>,
        u32,
        &mut Builder,
        &mut Scopes<'a>,
        Around,
        &'a Expr,
    ) -> Result<(), Memory>,
>(
    lowering: &Lowering<'a, F>,
    builder: &mut Builder,
    scopes: &mut Scopes<'a>,
    around: Around,
    place: Place,
    first: &'a [u8],
    parts: &'a [Hole],
) -> Result<(), Memory>
    requires nests { Lowers lowering.now.depth (F.pre lowering.now.nested)
        (F.post lowering.now.nested) }
    ensures code { OnOk result (built builder.new ≡ made (form_code
        lowering.now.tables.now.program.now (t.Shape.holes first.now (holes (map hole_of
        parts.now))) 0 place (scope_of scopes.old) around) (built builder.old)) }
    ensures scopes { OnOk result (scope_of scopes.new ≡ scope_of scopes.old) }
{
    let begins = is_text(first);
    builder.text_if(first)?;
    let here = above(begins, around)?;
    let count = all(lowering, builder, scopes, here, parts)?;
    let count = counted(begins, count)?;
    builder.placed(place, Op::Join(count, 0))?;
    Ok(())
}
