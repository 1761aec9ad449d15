//! Loops: `loop` and `for`.

ghost use Rattle.std.specs.Prelude.{◌≡◌, map, length, cond, OnOk, IfOk};
ghost use Rattle.verse_tree.specs.Tree as t;
ghost use Rattle.verse_tree.specs.View.{tree_of, for_of, trees};
ghost use Rattle.verse_meaning.specs.Evaluating as e;
ghost use Rattle.lower_code.specs.Arounds as a;
ghost use Rattle.lower_code.specs.Lowering as l;
ghost use Rattle.lower_lookup.specs.Statements.{generator_view};
ghost use Rattle.lower_expr.specs.Building.{built, made};
ghost use Rattle.lower_expr.specs.Locals.{scope_of};
ghost use Rattle.lower_fail.specs.Attempts.{turns_begun, turns_closed};
ghost use Rattle.lower_parts.specs.Parts.{form_code, Lowers, no_place, Grown};
ghost use Rattle.lower_blocks.specs.Codes.{inner_code, claused_code, levels_code};
ghost use Rattle.lower_blocks.specs.Codes.{body_code, for_code};
ghost use Rattle.lower_blocks.specs.Levels.{Leads, scope_claused, turns_at};

use crate::statements::{defined, inner};
use lower_code::arounds::Around;
use lower_expr::builder::Builder;
use lower_expr::scopes::{Scopes, Slot};
use lower_fail::ends::turns_end;
use lower_fail::loops::{
    ForMark, Turn, for_append, for_begin, for_body, for_domain, for_end, loop_begin, loop_end,
};
use lower_items::tables::Tables;
use lower_lookup::statements::{Generator, Statement, statement_of};
use lower_parts::lowering::Lowering;
use lower_parts::parts::{body, clauses};
use std::alloc::Global;
use verse_base::places::Place;
use verse_base::refusals::Memory;
use verse_code::operations::Op;
use verse_tree::exprs::{Expr, ForParts};

/// `loop` and its block.
pub fn loop_form<
    'a,
    F: Fn(
        &'a Tables<'a>,
        u32,
        &mut Builder,
        &mut Scopes<'a>,
        Around,
        &'a Expr,
    ) -> Result<(), Memory>,
>(
    lowering: &Lowering<'a, F>,
    builder: &mut Builder,
    scopes: &mut Scopes<'a>,
    around: Around,
    part: &'a Expr,
) -> Result<(), Memory>
    requires nests { Lowers lowering.now.depth (F.pre lowering.now.nested)
        (F.post lowering.now.nested) }
    ensures code { OnOk result (built builder.new ≡ made (form_code
        lowering.now.tables.now.program.now (t.Shape.loop_form (tree_of part.now)) 0 no_place
        (scope_of scopes.old) around) (built builder.old)) }
    ensures scopes { OnOk result (scope_of scopes.new ≡ scope_of scopes.old) }
{
    let mark = loop_begin(builder)?;
    lowering.part(builder, scopes, around.looped(), part)?;
    loop_end(builder, mark)?;
    Ok(())
}

fn taking(generator: Generator<'_>, local: u32) -> Op
    ensures { result ≡ l.taking (generator_view generator.entry) local }
{
    match generator {
        Generator::Elements(_) | Generator::Entries(_, _) => Op::Each(local),
        Generator::Range(_) => Op::Range(local),
    }
}

/// The four locals of a generator: those of its domain, of its place there, and of its names.
fn four_locals<'a>(scopes: &mut Scopes<'a>, generator: Generator<'a>) -> Result<(), Memory>
    ensures { OnOk result (scope_of scopes.new ≡ l.with_generator (generator_view
        generator.entry) (scope_of scopes.old)) }
{
    scopes.add(Slot::Hidden)?;
    scopes.add(Slot::Hidden)?;
    match generator {
        Generator::Elements(name) | Generator::Range(name) => {
            scopes.add(Slot::Constant(name))?;
            scopes.add(Slot::Hidden)?;
        }
        Generator::Entries(key, name) => {
            scopes.add(Slot::Constant(name))?;
            scopes.add(Slot::Constant(key))?;
        }
    }
    Ok(())
}

/// A generator begins behind its domain.
fn generate<'a>(
    builder: &mut Builder,
    scopes: &mut Scopes<'a>,
    generator: Generator<'a>,
) -> Result<Turn, Memory>
    ensures local { IfOk result (λ turn. turn.local ≡ length (scope_of scopes.old)) }
    ensures begun { IfOk result (λ turn. turn.begun ≡ turns_at (generator_view generator.entry)
        (scope_of scopes.old) (built builder.old)) }
    ensures added { OnOk result (built builder.new ≡ turns_begun (l.taking (generator_view
        generator.entry) (length (scope_of scopes.old))) (length (scope_of scopes.old)) (built
        builder.old)) }
    ensures scopes { OnOk result (scope_of scopes.new ≡ l.with_generator (generator_view
        generator.entry) (scope_of scopes.old)) }
{
    let local = scopes.count()?;
    let turn = for_domain(builder, taking(generator, local), local)?;
    four_locals(scopes, generator)?;
    Ok(turn)
}

/// A generator with its domain.
fn generated<
    'a,
    F: Fn(
        &'a Tables<'a>,
        u32,
        &mut Builder,
        &mut Scopes<'a>,
        Around,
        &'a Expr,
    ) -> Result<(), Memory>,
>(
    lowering: &Lowering<'a, F>,
    builder: &mut Builder,
    scopes: &mut Scopes<'a>,
    around: Around,
    generator: Generator<'a>,
    part: &'a Expr,
) -> Result<Turn, Memory>
    requires nests { Lowers lowering.now.depth (F.pre lowering.now.nested)
        (F.post lowering.now.nested) }
    ensures local { IfOk result (λ turn. turn.local ≡ length (scope_of scopes.old)) }
    ensures begun { IfOk result (λ turn. turn.begun ≡ turns_at (generator_view generator.entry)
        (scope_of scopes.old) (made (inner_code lowering.now.tables.now.program.now
        (tree_of part.now) (scope_of scopes.old) around) (built builder.old))) }
    ensures added { OnOk result (built builder.new ≡ turns_begun (l.taking (generator_view
        generator.entry) (length (scope_of scopes.old))) (length (scope_of scopes.old)) (made
        (inner_code lowering.now.tables.now.program.now (tree_of part.now) (scope_of scopes.old)
        around) (built builder.old))) }
    ensures scopes { OnOk result (scope_of scopes.new ≡ l.with_generator (generator_view
        generator.entry) (scope_of scopes.old)) }
{
    inner(lowering, builder, scopes, around, part)?;
    let turn = generate(builder, scopes, generator)?;
    Ok(turn)
}

/// A clause of a `for`; whether the code goes on behind it.
fn clause<
    'a,
    F: Fn(
        &'a Tables<'a>,
        u32,
        &mut Builder,
        &mut Scopes<'a>,
        Around,
        &'a Expr,
    ) -> Result<(), Memory>,
>(
    lowering: &Lowering<'a, F>,
    builder: &mut Builder,
    scopes: &mut Scopes<'a>,
    around: Around,
    turns: &mut Vec<Turn>,
    part: &'a Expr,
) -> Result<bool, Memory>
    requires nests { Lowers lowering.now.depth (F.pre lowering.now.nested)
        (F.post lowering.now.nested) }
    ensures code { IfOk result (λ goes_on. Leads (claused_code
        lowering.now.tables.now.program.now (tree_of part.now) (scope_of scopes.old) around)
        goes_on turns.old.items turns.new.items (scope_of scopes.new) (built builder.old) (built
        builder.new)) }
    ensures scopes { OnOk result (scope_of scopes.new ≡ scope_claused
        (e.statement_of (tree_of part.now)) (scope_of scopes.old)) }
{
    match statement_of(part) {
        Statement::Plain => {
            lowering.part(builder, scopes, around, part)?;
            builder.op(Op::Drop)?;
            Ok(true)
        }
        Statement::Defines(binder) => {
            defined(lowering, builder, scopes, around, binder, part)?;
            builder.op(Op::Drop)?;
            Ok(true)
        }
        Statement::Defers(_) => {
            builder.stuck()?;
            Ok(false)
        }
        Statement::Generates(generator) => {
            let turn = generated(lowering, builder, scopes, around, generator, part)?;
            turns.push(turn)?;
            Ok(true)
        }
    }
}

/// The clauses of a `for`; whether the code goes on behind them.
fn levels<
    'a,
    F: Fn(
        &'a Tables<'a>,
        u32,
        &mut Builder,
        &mut Scopes<'a>,
        Around,
        &'a Expr,
    ) -> Result<(), Memory>,
>(
    lowering: &Lowering<'a, F>,
    builder: &mut Builder,
    scopes: &mut Scopes<'a>,
    around: Around,
    turns: &mut Vec<Turn>,
    parts: &'a [Expr],
) -> Result<bool, Memory>
    requires nests { Lowers lowering.now.depth (F.pre lowering.now.nested)
        (F.post lowering.now.nested) }
    ensures code { IfOk result (λ goes_on. Leads (levels_code
        lowering.now.tables.now.program.now (trees (map tree_of parts.now)) (scope_of
        scopes.old) around) goes_on turns.old.items turns.new.items (scope_of scopes.new) (built
        builder.old) (built builder.new)) }
    ensures scopes { OnOk result (Grown (scope_of scopes.old) (scope_of scopes.new)) }
{
    'parts: for part in parts {
        let goes_on = clause(lowering, builder, scopes, around, turns, part)?;
        if !goes_on {
            return Ok(false);
        }
    }
    Ok(true)
}

/// The body of a `for` whose result is in a local, where the code goes on behind its clauses.
#[tactic(auto, using(lower_expr::proofs::Laws::made_then, lower_expr::proofs::Laws::made_one))]
fn for_value<
    'a,
    F: Fn(
        &'a Tables<'a>,
        u32,
        &mut Builder,
        &mut Scopes<'a>,
        Around,
        &'a Expr,
    ) -> Result<(), Memory>,
>(
    lowering: &Lowering<'a, F>,
    builder: &mut Builder,
    scopes: &mut Scopes<'a>,
    around: Around,
    mark: ForMark,
    local: u32,
    goes_on: bool,
    part: &'a Expr,
) -> Result<(), Memory>
    requires nests { Lowers lowering.now.depth (F.pre lowering.now.nested)
        (F.post lowering.now.nested) }
    ensures code { OnOk result (built builder.new ≡ cond goes_on (made (body_code
        lowering.now.tables.now.program.now (tree_of part.now) around local mark.place (scope_of
        scopes.old)) (built builder.old)) (built builder.old)) }
    ensures scopes { OnOk result (scope_of scopes.new ≡ scope_of scopes.old) }
{
    if goes_on {
        for_body(builder)?;
        lowering.part(builder, scopes, around, part)?;
        for_append(builder, mark, local)?;
    }
    Ok(())
}

/// The clauses of a `for` whose result is in a local, and its body behind them.
fn for_turns<
    'a,
    F: Fn(
        &'a Tables<'a>,
        u32,
        &mut Builder,
        &mut Scopes<'a>,
        Around,
        &'a Expr,
    ) -> Result<(), Memory>,
>(
    lowering: &Lowering<'a, F>,
    builder: &mut Builder,
    scopes: &mut Scopes<'a>,
    around: Around,
    mark: ForMark,
    local: u32,
    turns: &mut Vec<Turn>,
    parts: &'a ForParts,
) -> Result<(), Memory>
    requires nests { Lowers lowering.now.depth (F.pre lowering.now.nested)
        (F.post lowering.now.nested) }
    ensures code { OnOk result (turns_closed turns.new.items (built builder.new) ≡ turns_closed
        turns.old.items (made (levels_code lowering.now.tables.now.program.now (trees (for_of
        parts.now).0) (scope_of scopes.old) (a.enclosed around) (body_code
        lowering.now.tables.now.program.now (for_of parts.now).1 around local mark.place)) (built
        builder.old))) }
    ensures scopes { OnOk result (Grown (scope_of scopes.old) (scope_of scopes.new)) }
{
    let enclosed = around.enclosed();
    let goes_on = levels(lowering, builder, scopes, enclosed, turns, clauses(parts))?;
    for_value(
        lowering,
        builder,
        scopes,
        around,
        mark,
        local,
        goes_on,
        body(parts),
    )?;
    Ok(())
}

/// What stands in the attempt of a `for`.
fn for_inside<
    'a,
    F: Fn(
        &'a Tables<'a>,
        u32,
        &mut Builder,
        &mut Scopes<'a>,
        Around,
        &'a Expr,
    ) -> Result<(), Memory>,
>(
    alloc: Global,
    lowering: &Lowering<'a, F>,
    builder: &mut Builder,
    scopes: &mut Scopes<'a>,
    around: Around,
    mark: ForMark,
    parts: &'a ForParts,
) -> Result<(), Memory>
    requires nests { Lowers lowering.now.depth (F.pre lowering.now.nested)
        (F.post lowering.now.nested) }
    ensures code { OnOk result (built builder.new ≡ made (for_code
        lowering.now.tables.now.program.now (trees (for_of parts.now).0) (for_of parts.now).1
        (scope_of scopes.old) around mark.place) (built builder.old)) }
    ensures scopes { OnOk result (scope_of scopes.new ≡ scope_of scopes.old) }
{
    let local = scopes.count()?;
    scopes.add(Slot::Hidden)?;
    let mut turns = Vec::new(alloc);
    for_turns(
        lowering, builder, scopes, around, mark, local, &mut turns, parts,
    )?;
    turns_end(builder, &turns)?;
    scopes.cut(local);
    Ok(())
}

/// `for`
pub fn for_form<
    'a,
    F: Fn(
        &'a Tables<'a>,
        u32,
        &mut Builder,
        &mut Scopes<'a>,
        Around,
        &'a Expr,
    ) -> Result<(), Memory>,
>(
    lowering: &Lowering<'a, F>,
    builder: &mut Builder,
    scopes: &mut Scopes<'a>,
    around: Around,
    place: Place,
    parts: &'a ForParts,
) -> Result<(), Memory>
    requires nests { Lowers lowering.now.depth (F.pre lowering.now.nested)
        (F.post lowering.now.nested) }
    ensures code { OnOk result (built builder.new ≡ made (form_code
        lowering.now.tables.now.program.now (t.Shape.for_form (trees (for_of parts.now).0)
        (for_of parts.now).1) 0 place (scope_of scopes.old) around) (built builder.old)) }
    ensures scopes { OnOk result (scope_of scopes.new ≡ scope_of scopes.old) }
{
    let local = scopes.count()?;
    let mark = for_begin(builder, place, local)?;
    for_inside(
        lowering.tables.alloc,
        lowering,
        builder,
        scopes,
        around,
        mark,
        parts,
    )?;
    for_end(builder, mark, local)?;
    Ok(())
}
