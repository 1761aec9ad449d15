//! Statements and conditions, one by one.

ghost use Rattle.std.specs.Prelude.{◌≡◌, map, length, OnOk, IfOk};
ghost use Rattle.verse_tree.specs.declared.programs.Program.{Program};
ghost use Rattle.verse_tree.specs.View.{tree_of, shape_of, two_of, trees};
ghost use Rattle.verse_meaning.specs.Evaluating as e;
ghost use Rattle.lower_code.specs.declared.arounds.Around as r;
ghost use Rattle.verse_code.specs.declared.operations.Op.TheVariants as o;
ghost use Rattle.lower_code.specs.Pieces.{when, one};
ghost use Rattle.lower_code.specs.Lowering as l;
ghost use Rattle.lower_lookup.specs.Statements.{binder_view};
ghost use Rattle.lower_expr.specs.Building.{built, made, pushed};
ghost use Rattle.lower_expr.specs.Endings.{ending_code};
ghost use Rattle.lower_expr.specs.Locals.{scope_of};
ghost use Rattle.lower_fail.specs.Attempts.{defer_ended};
ghost use Rattle.lower_parts.specs.Parts.{Lowers};
ghost use Rattle.lower_blocks.specs.Insides.{inside, inside_shape, within_view, both_ends};
ghost use Rattle.lower_blocks.specs.Codes.{inner_code, inside_code, stated_code, around_behind};
ghost use Rattle.lower_blocks.specs.Codes.{statements_code, more_code};

use lower_code::arounds::Around;
use lower_expr::builder::Builder;
use lower_expr::endings::Ending;
use lower_expr::scopes::{Scopes, Slot};
use lower_fail::attempts::{defer_begin, defer_end};
use lower_items::tables::Tables;
use lower_lookup::statements::{Binder, Statement, any_defer, statement_of};
use lower_parts::lowering::Lowering;
use lower_parts::parts::{left, right};
use verse_base::refusals::Memory;
use verse_code::operations::Op;
use verse_tree::exprs::{Expr, Form, Two};

/// What stands in a statement or a clause.
#[derive(Clone, Copy)]
pub enum Within<'a> {
    Nothing,
    /// The value of a definition, the object of a member or the domain of a generator.
    Part(&'a Expr),
    /// A deferred block.
    Deferred(&'a Expr),
    /// Both ends of a range.
    Ends(&'a Two),
}

#[tactic(auto, using(crate::proofs::RuleSets::of_parts))]
fn form_within<'a>(form: &'a Form) -> Within<'a>
    ensures { within_view result ≡ inside_shape (shape_of form.now) }
{
    match form {
        Form::Let(_, value) => Within::Part(value.get()),
        Form::Def(_, typed) => Within::Part(typed.value.get()),
        Form::VarDef(_, typed) => Within::Part(typed.value.get()),
        Form::Defer(block) => Within::Deferred(block.get()),
        Form::Member(object, _) => Within::Part(object.get()),
        Form::Elements(_, domain) => Within::Part(domain.get()),
        Form::Entries(_, _, domain) => Within::Part(domain.get()),
        Form::Range(_, ends) => Within::Ends(ends),
        _ => Within::Nothing,
    }
}

fn tree_within<'a>(part: &'a Expr) -> Within<'a>
    ensures { within_view result ≡ inside (tree_of part.now) }
{
    form_within(&part.form)
}

/// Both ends of a range.
fn range_ends<
    'a,
    F: Fn(
        &'a Tables<'a>,
        u32,
        &mut Builder,
        &mut Scopes<'a>,
        Around,
        &'a Expr,
    ) -> Result<(), Memory>,
>(
    lowering: &Lowering<'a, F>,
    builder: &mut Builder,
    scopes: &mut Scopes<'a>,
    around: Around,
    two: &'a Two,
) -> Result<(), Memory>
    requires nests { Lowers lowering.now.depth (F.pre lowering.now.nested)
        (F.post lowering.now.nested) }
    ensures code { OnOk result (built builder.new ≡ made (inside_code
        lowering.now.tables.now.program.now (both_ends (two_of two.now).0 (two_of two.now).1)
        (scope_of scopes.old) around) (built builder.old)) }
    ensures scopes { OnOk result (scope_of scopes.new ≡ scope_of scopes.old) }
{
    lowering.part(builder, scopes, around, left(two))?;
    lowering.part(builder, scopes, around.up()?, right(two))?;
    Ok(())
}

/// The code of what stands in a statement or a clause.
pub fn inner<
    'a,
    F: Fn(
        &'a Tables<'a>,
        u32,
        &mut Builder,
        &mut Scopes<'a>,
        Around,
        &'a Expr,
    ) -> Result<(), Memory>,
>(
    lowering: &Lowering<'a, F>,
    builder: &mut Builder,
    scopes: &mut Scopes<'a>,
    around: Around,
    part: &'a Expr,
) -> Result<(), Memory>
    requires nests { Lowers lowering.now.depth (F.pre lowering.now.nested)
        (F.post lowering.now.nested) }
    ensures code { OnOk result (built builder.new ≡ made (inner_code
        lowering.now.tables.now.program.now (tree_of part.now) (scope_of scopes.old) around)
        (built builder.old)) }
    ensures scopes { OnOk result (scope_of scopes.new ≡ scope_of scopes.old) }
{
    match tree_within(part) {
        Within::Nothing => builder.stuck()?,
        Within::Part(value) => lowering.part(builder, scopes, around, value)?,
        Within::Deferred(block) => lowering.part(builder, scopes, around.enclosed(), block)?,
        Within::Ends(two) => range_ends(lowering, builder, scopes, around, two)?,
    }
    Ok(())
}

/// The names that a statement defines.
fn name<'a>(scopes: &mut Scopes<'a>, binder: Binder<'a>) -> Result<(), Memory>
    ensures { OnOk result (scope_of scopes.new ≡ l.with_binder (binder_view binder.entry)
        (scope_of scopes.old)) }
{
    match binder {
        Binder::Nothing => {}
        Binder::Constant(name) => scopes.add(Slot::Constant(name))?,
        Binder::Variable(name, _) => scopes.add(Slot::Variable(name))?,
    }
    Ok(())
}

fn binding(binder: Binder<'_>, local: u32) -> Ending
    ensures { ending_code result ≡ l.bind (binder_view binder.entry) local }
{
    match binder {
        Binder::Nothing => Ending::Nothing,
        Binder::Constant(_) => Ending::Keep(local),
        Binder::Variable(_, place) => Ending::Vary(place, local),
    }
}

/// The value of a definition goes into the next local, or into a variable's cell, and stays.
pub fn bind<'a>(
    builder: &mut Builder,
    scopes: &mut Scopes<'a>,
    binder: Binder<'a>,
) -> Result<(), Memory>
    ensures code { OnOk result (built builder.new ≡ made (l.bind (binder_view binder.entry)
        (length (scope_of scopes.old))) (built builder.old)) }
    ensures scopes { OnOk result (scope_of scopes.new ≡ l.with_binder (binder_view binder.entry)
        (scope_of scopes.old)) }
{
    let local = scopes.count()?;
    builder.ending(binding(binder, local))?;
    name(scopes, binder)?;
    Ok(())
}

/// The value of a definition, with its name.
pub fn defined<
    'a,
    F: Fn(
        &'a Tables<'a>,
        u32,
        &mut Builder,
        &mut Scopes<'a>,
        Around,
        &'a Expr,
    ) -> Result<(), Memory>,
>(
    lowering: &Lowering<'a, F>,
    builder: &mut Builder,
    scopes: &mut Scopes<'a>,
    around: Around,
    binder: Binder<'a>,
    part: &'a Expr,
) -> Result<(), Memory>
    requires nests { Lowers lowering.now.depth (F.pre lowering.now.nested)
        (F.post lowering.now.nested) }
    ensures code { OnOk result (built builder.new ≡ made (l.bind (binder_view binder.entry)
        (length (scope_of scopes.old))) (made (inner_code lowering.now.tables.now.program.now
        (tree_of part.now) (scope_of scopes.old) around) (built builder.old))) }
    ensures scopes { OnOk result (scope_of scopes.new ≡ l.with_binder (binder_view binder.entry)
        (scope_of scopes.old)) }
{
    inner(lowering, builder, scopes, around, part)?;
    bind(builder, scopes, binder)?;
    Ok(())
}

/// A deferred block.
fn deferred<
    'a,
    F: Fn(
        &'a Tables<'a>,
        u32,
        &mut Builder,
        &mut Scopes<'a>,
        Around,
        &'a Expr,
    ) -> Result<(), Memory>,
>(
    lowering: &Lowering<'a, F>,
    builder: &mut Builder,
    scopes: &mut Scopes<'a>,
    around: Around,
    part: &'a Expr,
) -> Result<(), Memory>
    requires nests { Lowers lowering.now.depth (F.pre lowering.now.nested)
        (F.post lowering.now.nested) }
    ensures code { OnOk result (built builder.new ≡ defer_ended (length (built builder.old).ops)
        (made (inner_code lowering.now.tables.now.program.now (tree_of part.now)
        (scope_of scopes.old) around) (pushed (o.Defer 0) (built builder.old)))) }
    ensures scopes { OnOk result (scope_of scopes.new ≡ scope_of scopes.old) }
{
    let begun = defer_begin(builder)?;
    inner(lowering, builder, scopes, around, part)?;
    defer_end(builder, begun)?;
    Ok(())
}

/// A statement; where the statements behind it stand.
fn stated<
    'a,
    F: Fn(
        &'a Tables<'a>,
        u32,
        &mut Builder,
        &mut Scopes<'a>,
        Around,
        &'a Expr,
    ) -> Result<(), Memory>,
>(
    lowering: &Lowering<'a, F>,
    builder: &mut Builder,
    scopes: &mut Scopes<'a>,
    around: Around,
    part: &'a Expr,
) -> Result<Around, Memory>
    requires nests { Lowers lowering.now.depth (F.pre lowering.now.nested)
        (F.post lowering.now.nested) }
    ensures code { OnOk result (built builder.new ≡ made (stated_code
        lowering.now.tables.now.program.now (tree_of part.now) (scope_of scopes.old) around)
        (built builder.old)) }
    ensures scopes { OnOk result (scope_of scopes.new ≡ l.scope_stated
        (e.statement_of (tree_of part.now)) (scope_of scopes.old)) }
    ensures around { IfOk result (λ r. r ≡ around_behind lowering.now.tables.now.program.now
        (tree_of part.now) around) }
{
    match statement_of(part) {
        Statement::Plain => {
            lowering.part(builder, scopes, around, part)?;
            Ok(around)
        }
        Statement::Defines(binder) => {
            defined(lowering, builder, scopes, around, binder, part)?;
            Ok(around)
        }
        Statement::Defers(_) => {
            deferred(lowering, builder, scopes, around, part)?;
            Ok(around.deferring()?)
        }
        Statement::Generates(_) => {
            builder.stuck()?;
            Ok(around)
        }
    }
}

/// Statements behind another.
fn more_statements<
    'a,
    F: Fn(
        &'a Tables<'a>,
        u32,
        &mut Builder,
        &mut Scopes<'a>,
        Around,
        &'a Expr,
    ) -> Result<(), Memory>,
>(
    lowering: &Lowering<'a, F>,
    builder: &mut Builder,
    scopes: &mut Scopes<'a>,
    around: Around,
    parts: &'a [Expr],
) -> Result<(), Memory>
    requires nests { Lowers lowering.now.depth (F.pre lowering.now.nested)
        (F.post lowering.now.nested) }
    ensures code { OnOk result (built builder.new ≡ made (more_code
        lowering.now.tables.now.program.now (trees (map tree_of parts.now)) (scope_of
        scopes.old) around) (built builder.old)) }
    ensures scopes { OnOk result (scope_of scopes.new ≡ l.scope_behind
        (trees (map tree_of parts.now)) (scope_of scopes.old)) }
{
    let mut behind = around;
    'parts: for part in parts {
        builder.op(Op::Drop)?;
        behind = stated(lowering, builder, scopes, behind, part)?;
    }
    Ok(())
}

/// The deferred blocks of a block run.
#[tactic(auto, using(lower_expr::proofs::Plain::made_when, lower_expr::proofs::Laws::made_one))]
fn leave(builder: &mut Builder, around: Around, defers: bool) -> Result<(), Memory>
    ensures { OnOk result (built builder.new ≡ made (when defers (one (o.Leave around.defers)))
        (built builder.old)) }
{
    if defers {
        builder.op(Op::Leave(around.defers))?;
    }
    Ok(())
}

/// Statements or conditions, whose names stay.
pub fn statements<
    'a,
    F: Fn(
        &'a Tables<'a>,
        u32,
        &mut Builder,
        &mut Scopes<'a>,
        Around,
        &'a Expr,
    ) -> Result<(), Memory>,
>(
    lowering: &Lowering<'a, F>,
    builder: &mut Builder,
    scopes: &mut Scopes<'a>,
    around: Around,
    parts: &'a [Expr],
) -> Result<(), Memory>
    requires nests { Lowers lowering.now.depth (F.pre lowering.now.nested)
        (F.post lowering.now.nested) }
    ensures code { OnOk result (built builder.new ≡ made (statements_code
        lowering.now.tables.now.program.now (trees (map tree_of parts.now)) (scope_of
        scopes.old) around) (built builder.old)) }
    ensures scopes { OnOk result (scope_of scopes.new ≡ l.scope_behind
        (trees (map tree_of parts.now)) (scope_of scopes.old)) }
{
    let Some((first, rest)) = parts.split_first() else {
        builder.op(Op::Unit)?;
        return Ok(());
    };
    let behind = stated(lowering, builder, scopes, around, first)?;
    more_statements(lowering, builder, scopes, behind, rest)?;
    leave(builder, around, any_defer(parts))?;
    Ok(())
}

/// Statements or conditions, whose names are not seen behind them.
#[tactic(auto, using(crate::proofs::Behind::cut_behind))]
pub fn own_statements<
    'a,
    F: Fn(
        &'a Tables<'a>,
        u32,
        &mut Builder,
        &mut Scopes<'a>,
        Around,
        &'a Expr,
    ) -> Result<(), Memory>,
>(
    lowering: &Lowering<'a, F>,
    builder: &mut Builder,
    scopes: &mut Scopes<'a>,
    around: Around,
    parts: &'a [Expr],
) -> Result<(), Memory>
    requires nests { Lowers lowering.now.depth (F.pre lowering.now.nested)
        (F.post lowering.now.nested) }
    ensures code { OnOk result (built builder.new ≡ made (statements_code
        lowering.now.tables.now.program.now (trees (map tree_of parts.now)) (scope_of
        scopes.old) around) (built builder.old)) }
    ensures scopes { OnOk result (scope_of scopes.new ≡ scope_of scopes.old) }
{
    let count = scopes.count()?;
    statements(lowering, builder, scopes, around, parts)?;
    scopes.cut(count);
    Ok(())
}
