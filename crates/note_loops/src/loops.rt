//! Loops: `loop` and `for`.

ghost use Rattle.std.specs.Prelude.{◌≡◌, map, length, cond, OnOk, IfOk};
ghost use Rattle.verse_tree.specs.Tree as t;
ghost use Rattle.verse_tree.specs.View.{tree_of, for_of, trees};
ghost use Rattle.verse_meaning.specs.Evaluating as e;
ghost use Rattle.lower_code.specs.Lowering as l;
ghost use Rattle.lower_lookup.specs.Statements.{generator_view};
ghost use Rattle.lower_expr.specs.Locals.{scope_of};
ghost use Rattle.lower_parts.specs.Parts.{Grown};
ghost use Rattle.lower_blocks.specs.Levels.{scope_claused};
ghost use Rattle.lower_notes.specs.Noting as n;
ghost use Rattle.note_states.specs.View.{standing_of};
ghost use Rattle.note_sorts.specs.Tabled.{found_of};
ghost use Rattle.note_stretches.specs.Noted.{noted, walked, changed};
ghost use Rattle.note_stretches.specs.Forms.{turn_state, turn_begun};
ghost use Rattle.note_parts.specs.Parts.{form_walk, Notes, no_place};
ghost use Rattle.note_loops.specs.Walks.{claused_walk, levels_walk, body_walk, for_walk};
ghost use Rattle.note_loops.specs.Levels.{Leads};

use crate::turns::turns_end;
use lower_code::arounds::{Around, next};
use lower_expr::scopes::{Scopes, Slot};
use lower_items::tables::Tables;
use lower_lookup::statements::{Generator, Statement, statement_of};
use lower_parts::parts::{body, clauses};
use note_blocks::statements::{bind, inner};
use note_parts::noter::{Noter, number_of};
use note_sorts::kinds::Kind;
use note_states::standing::Standing;
use note_stretches::forms::{attempt_end, loop_begin, loop_end, try_begin, try_open};
use note_stretches::noting::Noting;
use std::alloc::Global;
use verse_base::refusals::Memory;
use verse_tree::exprs::{Expr, ForParts};
use verse_tree::programs::Program;

/// `loop` and its block.
pub fn loop_form<
    'a,
    F: Fn(
        &'a Tables<'a>,
        u32,
        &mut Noting,
        &mut Scopes<'a>,
        Around,
        &'a Expr,
    ) -> Result<(), Memory>,
>(
    noter: &Noter<'a, F>,
    noting: &mut Noting,
    scopes: &mut Scopes<'a>,
    around: Around,
    part: &'a Expr,
) -> Result<(), Memory>
    requires nests { Notes noter.now.depth (F.pre noter.now.nested)
        (F.post noter.now.nested) }
    ensures states { OnOk result (noted noting.new ≡ walked (form_walk
        noter.now.tables.now.program.now (t.Shape.loop_form (tree_of part.now)) 0 no_place
        (scope_of scopes.old) around) (noted noting.old)) }
    ensures scopes { OnOk result (scope_of scopes.new ≡ scope_of scopes.old) }
{
    let mark = loop_begin(noting)?;
    noter.part(noting, scopes, around.looped(), part)?;
    loop_end(noting, mark)?;
    Ok(())
}

/// The domain of a generator goes into a local.
fn take(noting: &mut Noting, generator: Generator<'_>, local: u32) -> Result<(), Memory>
    ensures { OnOk result (noted noting.new ≡ changed (n.takes (generator_view generator.entry)
        local) (noted noting.old)) }
{
    match generator {
        Generator::Elements(_) => noting.takes_domain(local),
        Generator::Entries(_, _) => noting.takes_domain(local),
        Generator::Range(_) => noting.takes_range(local),
    }
}

/// What a turn takes, from the third local on.
fn turn(
    noting: &mut Noting,
    program: &Program,
    generator: Generator<'_>,
    local: u32,
    node: u32,
) -> Result<(), Memory>
    ensures { OnOk result (noted noting.new ≡ changed (n.turns (generator_view generator.entry)
        local ((found_of program.now).sort node) ((found_of program.now).key node))
        (noted noting.old)) }
{
    let value = next(next(local)?)?;
    match generator {
        Generator::Elements(_) => {
            noting.turns_with(program, value, Kind::Node(node), Kind::None)
        }
        Generator::Entries(_, _) => {
            noting.turns_with(program, value, Kind::Node(node), Kind::Key(node))
        }
        Generator::Range(_) => noting.turns_with(program, value, Kind::Node(node), Kind::None),
    }
}

/// The four locals of a generator: those of its domain, of its place there, and of its names.
fn four_locals<'a>(scopes: &mut Scopes<'a>, generator: Generator<'a>) -> Result<(), Memory>
    ensures { OnOk result (scope_of scopes.new ≡ l.with_generator (generator_view
        generator.entry) (scope_of scopes.old)) }
{
    scopes.add(Slot::Hidden)?;
    scopes.add(Slot::Hidden)?;
    match generator {
        Generator::Elements(name) | Generator::Range(name) => {
            scopes.add(Slot::Constant(name))?;
            scopes.add(Slot::Hidden)?;
        }
        Generator::Entries(key, name) => {
            scopes.add(Slot::Constant(name))?;
            scopes.add(Slot::Constant(key))?;
        }
    }
    Ok(())
}

/// A generator begins behind its domain; what stands where it takes its next value.
fn generate<'a>(
    noting: &mut Noting,
    program: &Program,
    scopes: &mut Scopes<'a>,
    generator: Generator<'a>,
    node: u32,
) -> Result<Standing, Memory>
    ensures at { IfOk result (λ x. standing_of x ≡ (turn_state (n.takes (generator_view
        generator.entry) (length (scope_of scopes.old))) (noted noting.old)).exit) }
    ensures begun { OnOk result (noted noting.new ≡ turn_begun (n.turns (generator_view
        generator.entry) (length (scope_of scopes.old)) ((found_of program.now).sort node)
        ((found_of program.now).key node)) (turn_state (n.takes (generator_view
        generator.entry) (length (scope_of scopes.old))) (noted noting.old))) }
    ensures scopes { OnOk result (scope_of scopes.new ≡ l.with_generator (generator_view
        generator.entry) (scope_of scopes.old)) }
{
    let local = scopes.count()?;
    noting.mark()?;
    noting.untried();
    noting.mark()?;
    take(noting, generator, local)?;
    let at = noting.standing()?;
    noting.mark()?;
    turn(noting, program, generator, local, node)?;
    try_open(noting)?;
    four_locals(scopes, generator)?;
    Ok(at)
}

/// A clause of a `for`; whether something goes on behind it.
fn clause<
    'a,
    F: Fn(
        &'a Tables<'a>,
        u32,
        &mut Noting,
        &mut Scopes<'a>,
        Around,
        &'a Expr,
    ) -> Result<(), Memory>,
>(
    noter: &Noter<'a, F>,
    noting: &mut Noting,
    scopes: &mut Scopes<'a>,
    around: Around,
    turns: &mut Vec<Standing>,
    part: &'a Expr,
) -> Result<bool, Memory>
    requires nests { Notes noter.now.depth (F.pre noter.now.nested)
        (F.post noter.now.nested) }
    ensures states { IfOk result (λ goes_on. Leads (claused_walk
        noter.now.tables.now.program.now (tree_of part.now) (scope_of scopes.old) around)
        goes_on (map standing_of turns.old.items) (map standing_of turns.new.items)
        (scope_of scopes.new) (noted noting.old) (noted noting.new)) }
    ensures scopes { OnOk result (scope_of scopes.new ≡ scope_claused
        (e.statement_of (tree_of part.now)) (scope_of scopes.old)) }
{
    match statement_of(part) {
        Statement::Plain => {
            noter.part(noting, scopes, around, part)?;
            noting.drop_values(1)?;
            Ok(true)
        }
        Statement::Defines(binder) => {
            let program = noter.tables.program;
            inner(noter, noting, scopes, around, part)?;
            bind(noting, program, scopes, binder, number_of(part))?;
            noting.drop_values(1)?;
            Ok(true)
        }
        Statement::Defers(_) => {
            noting.ends()?;
            Ok(false)
        }
        Statement::Generates(generator) => {
            let program = noter.tables.program;
            inner(noter, noting, scopes, around, part)?;
            let at = generate(noting, program, scopes, generator, number_of(part))?;
            turns.push(at)?;
            Ok(true)
        }
    }
}

/// The clauses of a `for`; whether something goes on behind them.
fn levels<
    'a,
    F: Fn(
        &'a Tables<'a>,
        u32,
        &mut Noting,
        &mut Scopes<'a>,
        Around,
        &'a Expr,
    ) -> Result<(), Memory>,
>(
    noter: &Noter<'a, F>,
    noting: &mut Noting,
    scopes: &mut Scopes<'a>,
    around: Around,
    turns: &mut Vec<Standing>,
    parts: &'a [Expr],
) -> Result<bool, Memory>
    requires nests { Notes noter.now.depth (F.pre noter.now.nested)
        (F.post noter.now.nested) }
    ensures states { IfOk result (λ goes_on. Leads (levels_walk
        noter.now.tables.now.program.now (trees (map tree_of parts.now)) (scope_of
        scopes.old) around) goes_on (map standing_of turns.old.items)
        (map standing_of turns.new.items) (scope_of scopes.new) (noted noting.old)
        (noted noting.new)) }
    ensures scopes { OnOk result (Grown (scope_of scopes.old) (scope_of scopes.new)) }
{
    'parts: for part in parts {
        let goes_on = clause(noter, noting, scopes, around, turns, part)?;
        if !goes_on {
            return Ok(false);
        }
    }
    Ok(true)
}

/// The body of a `for`, where something goes on behind its clauses.
fn for_value<
    'a,
    F: Fn(
        &'a Tables<'a>,
        u32,
        &mut Noting,
        &mut Scopes<'a>,
        Around,
        &'a Expr,
    ) -> Result<(), Memory>,
>(
    noter: &Noter<'a, F>,
    noting: &mut Noting,
    scopes: &mut Scopes<'a>,
    around: Around,
    goes_on: bool,
    part: &'a Expr,
) -> Result<(), Memory>
    requires nests { Notes noter.now.depth (F.pre noter.now.nested)
        (F.post noter.now.nested) }
    ensures states { OnOk result (noted noting.new ≡ cond goes_on (walked (body_walk
        noter.now.tables.now.program.now (tree_of part.now) around (scope_of
        scopes.old)) (noted noting.old)) (noted noting.old)) }
    ensures scopes { OnOk result (scope_of scopes.new ≡ scope_of scopes.old) }
{
    if goes_on {
        noting.commit()?;
        noter.part(noting, scopes, around, part)?;
        noting.drop_values(1)?;
    }
    Ok(())
}

/// What stands in the attempt of a `for`.
fn for_inside<
    'a,
    F: Fn(
        &'a Tables<'a>,
        u32,
        &mut Noting,
        &mut Scopes<'a>,
        Around,
        &'a Expr,
    ) -> Result<(), Memory>,
>(
    alloc: Global,
    noter: &Noter<'a, F>,
    noting: &mut Noting,
    scopes: &mut Scopes<'a>,
    around: Around,
    parts: &'a ForParts,
) -> Result<(), Memory>
    requires nests { Notes noter.now.depth (F.pre noter.now.nested)
        (F.post noter.now.nested) }
    ensures states { OnOk result (noted noting.new ≡ walked (for_walk
        noter.now.tables.now.program.now (trees (for_of parts.now).0) (for_of parts.now).1
        (scope_of scopes.old) around) (noted noting.old)) }
    ensures scopes { OnOk result (scope_of scopes.new ≡ scope_of scopes.old) }
{
    let local = scopes.count()?;
    scopes.add(Slot::Hidden)?;
    let mut turns = Vec::new(alloc);
    let enclosed = around.enclosed();
    let goes_on = levels(noter, noting, scopes, enclosed, &mut turns, clauses(parts))?;
    for_value(noter, noting, scopes, around, goes_on, body(parts))?;
    turns_end(noting, turns)?;
    scopes.cut(local);
    Ok(())
}

/// `for`
pub fn for_form<
    'a,
    F: Fn(
        &'a Tables<'a>,
        u32,
        &mut Noting,
        &mut Scopes<'a>,
        Around,
        &'a Expr,
    ) -> Result<(), Memory>,
>(
    noter: &Noter<'a, F>,
    noting: &mut Noting,
    scopes: &mut Scopes<'a>,
    around: Around,
    node: u32,
    parts: &'a ForParts,
) -> Result<(), Memory>
    requires nests { Notes noter.now.depth (F.pre noter.now.nested)
        (F.post noter.now.nested) }
    ensures states { OnOk result (noted noting.new ≡ walked (form_walk
        noter.now.tables.now.program.now (t.Shape.for_form (trees (for_of parts.now).0)
        (for_of parts.now).1) node no_place
        (scope_of scopes.old) around) (noted noting.old)) }
    ensures scopes { OnOk result (scope_of scopes.new ≡ scope_of scopes.old) }
{
    let program = noter.tables.program;
    let local = scopes.count()?;
    noting.push(program, Kind::Node(node))?;
    noting.put(program, local, Kind::Node(node))?;
    let before = try_begin(noting)?;
    for_inside(noter.tables.alloc, noter, noting, scopes, around, parts)?;
    attempt_end(noting, before);
    noting.last()?;
    Ok(())
}
