//! Statements and conditions, one by one.

ghost use Rattle.std.specs.Prelude.{◌≡◌, map, length, OnOk, IfOk};
ghost use Rattle.verse_tree.specs.View.{tree_of, shape_of, trees};
ghost use Rattle.verse_meaning.specs.Evaluating as e;
ghost use Rattle.lower_notes.specs.Applied as p;
ghost use Rattle.lower_notes.specs.Stretches.{when, leave};
ghost use Rattle.lower_code.specs.Lowering as l;
ghost use Rattle.lower_lookup.specs.Statements.{binder_view};
ghost use Rattle.lower_expr.specs.Locals.{scope_of};
ghost use Rattle.note_sorts.specs.Tabled.{found_of};
ghost use Rattle.note_stretches.specs.Noted.{noted, walked};
ghost use Rattle.note_parts.specs.Parts.{Notes};
ghost use Rattle.note_blocks.specs.Walks.{inner_walk, deferred_walk, stated_walk, statements_walk};
ghost use Rattle.note_blocks.specs.Walks.{more_walk};
ghost use Rattle.lower_blocks.specs.Codes.{around_behind};
ghost use Rattle.note_blocks.specs.Insides.{inside, inside_shape, within_view};

use lower_code::arounds::Around;
use lower_expr::scopes::{Scopes, Slot};
use lower_items::tables::Tables;
use lower_lookup::statements::{Binder, Statement, any_defer, statement_of};
use lower_parts::parts::{left, right};
use note_applied::values;
use note_parts::noter::{Noter, number_of};
use note_sorts::kinds::Kind;
use note_stretches::forms::{attempt_end, defer_begin};
use note_stretches::noting::Noting;
use verse_base::refusals::Memory;
use verse_tree::exprs::{Expr, Form, Two};
use verse_tree::programs::Program;

/// What stands in a statement or a clause.
#[derive(Clone, Copy)]
pub enum Within<'a> {
    Nothing,
    /// The value of a definition, the object of a member or the domain of a generator.
    Part(&'a Expr),
    /// A deferred block.
    Deferred(&'a Expr),
    /// Both ends of a range.
    Ends(&'a Two),
}

#[tactic(auto, using(crate::proofs::RuleSets::of_parts))]
fn form_within<'a>(form: &'a Form) -> Within<'a>
    ensures { within_view result ≡ inside_shape (shape_of form.now) }
{
    match form {
        Form::Let(_, value) => Within::Part(value.get()),
        Form::Def(_, typed) => Within::Part(typed.value.get()),
        Form::VarDef(_, typed) => Within::Part(typed.value.get()),
        Form::Defer(block) => Within::Deferred(block.get()),
        Form::Member(object, _) => Within::Part(object.get()),
        Form::Elements(_, domain) => Within::Part(domain.get()),
        Form::Entries(_, _, domain) => Within::Part(domain.get()),
        Form::Range(_, ends) => Within::Ends(ends),
        _ => Within::Nothing,
    }
}

fn tree_within<'a>(part: &'a Expr) -> Within<'a>
    ensures { within_view result ≡ inside (tree_of part.now) }
{
    form_within(&part.form)
}

/// What stands in a statement or a clause.
pub fn inner<
    'a,
    F: Fn(
        &'a Tables<'a>,
        u32,
        &mut Noting,
        &mut Scopes<'a>,
        Around,
        &'a Expr,
    ) -> Result<(), Memory>,
>(
    noter: &Noter<'a, F>,
    noting: &mut Noting,
    scopes: &mut Scopes<'a>,
    around: Around,
    part: &'a Expr,
) -> Result<(), Memory>
    requires nests { Notes noter.now.depth (F.pre noter.now.nested)
        (F.post noter.now.nested) }
    ensures states { OnOk result (noted noting.new ≡ walked (inner_walk
        noter.now.tables.now.program.now (tree_of part.now) (scope_of scopes.old) around) (noted
        noting.old)) }
    ensures scopes { OnOk result (scope_of scopes.new ≡ scope_of scopes.old) }
{
    match tree_within(part) {
        Within::Nothing => noting.ends()?,
        Within::Part(value) => noter.part(noting, scopes, around, value)?,
        Within::Deferred(block) => noter.part(noting, scopes, around.enclosed(), block)?,
        Within::Ends(ends) => {
            noter.part(noting, scopes, around, left(ends))?;
            noter.part(noting, scopes, around.up()?, right(ends))?;
        }
    }
    Ok(())
}

/// The names that a statement defines.
fn name<'a>(scopes: &mut Scopes<'a>, binder: Binder<'a>) -> Result<(), Memory>
    ensures { OnOk result (scope_of scopes.new ≡ l.with_binder (binder_view binder.entry)
        (scope_of scopes.old)) }
{
    match binder {
        Binder::Nothing => {}
        Binder::Constant(name) => scopes.add(Slot::Constant(name))?,
        Binder::Variable(name, _) => scopes.add(Slot::Variable(name))?,
    }
    Ok(())
}

/// The value of a definition, which the node of a number is, goes into the next local, or into a
/// variable's cell, and stays.
pub fn bind<'a>(
    noting: &mut Noting,
    program: &Program,
    scopes: &mut Scopes<'a>,
    binder: Binder<'a>,
    node: u32,
) -> Result<(), Memory>
    ensures states { OnOk result (noted noting.new ≡ walked (p.bind (binder_view binder.entry)
        (length (scope_of scopes.old)) ((found_of program.now).sort node)) (noted noting.old)) }
    ensures scopes { OnOk result (scope_of scopes.new ≡ l.with_binder (binder_view binder.entry)
        (scope_of scopes.old)) }
{
    let local = scopes.count()?;
    values::bind(noting, program, binder, local, node)?;
    name(scopes, binder)?;
    Ok(())
}

/// A deferred block, and the value of what defers it.
fn deferred<
    'a,
    F: Fn(
        &'a Tables<'a>,
        u32,
        &mut Noting,
        &mut Scopes<'a>,
        Around,
        &'a Expr,
    ) -> Result<(), Memory>,
>(
    noter: &Noter<'a, F>,
    noting: &mut Noting,
    scopes: &mut Scopes<'a>,
    around: Around,
    part: &'a Expr,
) -> Result<(), Memory>
    requires nests { Notes noter.now.depth (F.pre noter.now.nested)
        (F.post noter.now.nested) }
    ensures states { OnOk result (noted noting.new ≡ walked (deferred_walk
        noter.now.tables.now.program.now (tree_of part.now) (scope_of scopes.old) around) (noted
        noting.old)) }
    ensures scopes { OnOk result (scope_of scopes.new ≡ scope_of scopes.old) }
{
    let behind = defer_begin(noting)?;
    inner(noter, noting, scopes, around, part)?;
    noting.drop_values(1)?;
    noting.ends()?;
    attempt_end(noting, behind);
    noting.push(noter.tables.program, Kind::Node(number_of(part)))?;
    Ok(())
}

/// A statement; where the statements behind it stand.
fn stated<
    'a,
    F: Fn(
        &'a Tables<'a>,
        u32,
        &mut Noting,
        &mut Scopes<'a>,
        Around,
        &'a Expr,
    ) -> Result<(), Memory>,
>(
    noter: &Noter<'a, F>,
    noting: &mut Noting,
    scopes: &mut Scopes<'a>,
    around: Around,
    part: &'a Expr,
) -> Result<Around, Memory>
    requires nests { Notes noter.now.depth (F.pre noter.now.nested)
        (F.post noter.now.nested) }
    ensures states { OnOk result (noted noting.new ≡ walked (stated_walk
        noter.now.tables.now.program.now (tree_of part.now) (scope_of scopes.old) around) (noted
        noting.old)) }
    ensures scopes { OnOk result (scope_of scopes.new ≡ l.scope_stated
        (e.statement_of (tree_of part.now)) (scope_of scopes.old)) }
    ensures around { IfOk result (λ r. r ≡ around_behind noter.now.tables.now.program.now
        (tree_of part.now) around) }
{
    match statement_of(part) {
        Statement::Plain => {
            noter.part(noting, scopes, around, part)?;
            Ok(around)
        }
        Statement::Defines(binder) => {
            inner(noter, noting, scopes, around, part)?;
            bind(
                noting,
                noter.tables.program,
                scopes,
                binder,
                number_of(part),
            )?;
            Ok(around)
        }
        Statement::Defers(_) => {
            deferred(noter, noting, scopes, around, part)?;
            Ok(around.deferring()?)
        }
        Statement::Generates(_) => {
            noting.ends()?;
            Ok(around)
        }
    }
}

/// Statements behind another.
fn more_statements<
    'a,
    F: Fn(
        &'a Tables<'a>,
        u32,
        &mut Noting,
        &mut Scopes<'a>,
        Around,
        &'a Expr,
    ) -> Result<(), Memory>,
>(
    noter: &Noter<'a, F>,
    noting: &mut Noting,
    scopes: &mut Scopes<'a>,
    around: Around,
    parts: &'a [Expr],
) -> Result<(), Memory>
    requires nests { Notes noter.now.depth (F.pre noter.now.nested)
        (F.post noter.now.nested) }
    ensures states { OnOk result (noted noting.new ≡ walked (more_walk
        noter.now.tables.now.program.now (trees (map tree_of parts.now)) (scope_of
        scopes.old) around) (noted noting.old)) }
    ensures scopes { OnOk result (scope_of scopes.new ≡ l.scope_behind
        (trees (map tree_of parts.now)) (scope_of scopes.old)) }
{
    let mut behind = around;
    'parts: for part in parts {
        noting.drop_values(1)?;
        behind = stated(noter, noting, scopes, behind, part)?;
    }
    Ok(())
}

/// The deferred blocks of a block run.
#[tactic(auto, using(note_stretches::proofs::Laws::walked_when))]
fn leave(noting: &mut Noting, around: Around, defers: bool) -> Result<(), Memory>
    ensures { OnOk result (noted noting.new ≡ walked (when defers (leave around.defers))
        (noted noting.old)) }
{
    if defers {
        noting.leave(around.defers)?;
    }
    Ok(())
}

/// Statements or conditions, whose names stay.
pub fn statements<
    'a,
    F: Fn(
        &'a Tables<'a>,
        u32,
        &mut Noting,
        &mut Scopes<'a>,
        Around,
        &'a Expr,
    ) -> Result<(), Memory>,
>(
    noter: &Noter<'a, F>,
    noting: &mut Noting,
    scopes: &mut Scopes<'a>,
    around: Around,
    parts: &'a [Expr],
) -> Result<(), Memory>
    requires nests { Notes noter.now.depth (F.pre noter.now.nested)
        (F.post noter.now.nested) }
    ensures states { OnOk result (noted noting.new ≡ walked (statements_walk
        noter.now.tables.now.program.now (trees (map tree_of parts.now)) (scope_of
        scopes.old) around) (noted noting.old)) }
    ensures scopes { OnOk result (scope_of scopes.new ≡ l.scope_behind
        (trees (map tree_of parts.now)) (scope_of scopes.old)) }
{
    let Some((first, rest)) = parts.split_first() else {
        noting.push(noter.tables.program, Kind::Unit)?;
        return Ok(());
    };
    let behind = stated(noter, noting, scopes, around, first)?;
    more_statements(noter, noting, scopes, behind, rest)?;
    leave(noting, around, any_defer(parts))?;
    Ok(())
}

/// Statements or conditions, whose names are not seen behind them.
#[tactic(auto, using(lower_blocks::proofs::Behind::cut_behind))]
pub fn own_statements<
    'a,
    F: Fn(
        &'a Tables<'a>,
        u32,
        &mut Noting,
        &mut Scopes<'a>,
        Around,
        &'a Expr,
    ) -> Result<(), Memory>,
>(
    noter: &Noter<'a, F>,
    noting: &mut Noting,
    scopes: &mut Scopes<'a>,
    around: Around,
    parts: &'a [Expr],
) -> Result<(), Memory>
    requires nests { Notes noter.now.depth (F.pre noter.now.nested)
        (F.post noter.now.nested) }
    ensures states { OnOk result (noted noting.new ≡ walked (statements_walk
        noter.now.tables.now.program.now (trees (map tree_of parts.now)) (scope_of
        scopes.old) around) (noted noting.old)) }
    ensures scopes { OnOk result (scope_of scopes.new ≡ scope_of scopes.old) }
{
    let count = scopes.count()?;
    statements(noter, noting, scopes, around, parts)?;
    scopes.cut(count);
    Ok(())
}
