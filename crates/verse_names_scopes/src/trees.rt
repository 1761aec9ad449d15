//! The walk over blocks, statements and expressions.

ghost use Rattle.std.specs.Prelude.{◌≡◌, true, map, length, OnOk};
ghost use Rattle.std.specs.Option.{option_map};
ghost use Rattle.verse_tree.specs.View.{tree_of, shape_of, two_of, typed_value_of, if_of};
ghost use Rattle.verse_tree.specs.View.{applied_of, for_of, cases_of, hole_of, pair_of, given_of};
ghost use Rattle.verse_tree.specs.View.{trees, holes, pairs, givens, return_shape, if_shape};
ghost use Rattle.verse_tree.specs.View.{event_shape};
ghost use Rattle.verse_names_scopes.specs.Subjects.{subject};
ghost use Rattle.verse_names_scopes.specs.Scopes.{apart, operand, through, through_parts};
ghost use Rattle.verse_names_scopes.specs.Scopes.{through_all};
ghost use Rattle.verse_names_scopes.specs.Scopes.{through_arms, through_holes, through_pairs};
ghost use Rattle.verse_names_scopes.specs.Scopes.{through_givens, through_written};
ghost use Rattle.verse_names_scopes.specs.Naming.{noted, cut_back};
ghost use Rattle.verse_names_scopes.specs.Views.{world_of, naming_of};

use crate::naming::{Naming, World};
use crate::types::walk_type;
use sqlite_items::Boxed;
use verse_base::refusals::Memory;
use verse_tree::exprs::{
    Applied, Cases, Expr, ForParts, Form, Given, Hole, IfParts, Operator, Pair, Two, TypedValue,
};
use verse_tree::types::TyExpr;

fn note_expr<'a>(
    naming: &mut Naming<'a>,
    world: &World<'_, 'a>,
    expr: &'a Expr,
) -> Result<(), Memory>
    ensures { OnOk result (naming_of naming.new ≡
        noted (world_of world.now) expr.now.node expr.now.place
        (subject expr.now.node (shape_of expr.now.form)) (naming_of naming.old)) }
{
    let node = expr.node;
    let place = expr.place;
    match &expr.form {
        Form::Let(name, _) => naming.define(world, node, place, name.as_slice()),
        Form::Def(name, _) => naming.define(world, node, place, name.as_slice()),
        Form::VarDef(name, _) => naming.define(world, node, place, name.as_slice()),
        Form::Elements(name, _) => naming.define(world, node, place, name.as_slice()),
        Form::Range(name, _) => naming.define(world, node, place, name.as_slice()),
        Form::Entries(key, value, _) => {
            naming.define_both(world, node, place, key.as_slice(), value.as_slice())
        }
        Form::This => naming.use_this(world, node, place),
        Form::Name(name) => naming.use_name(world, node, place, name.as_slice()),
        Form::EnumPattern(name, _) => naming.use_name(world, node, place, name.as_slice()),
        Form::Instance(name, parts) => {
            naming.use_class(world, node, place, name.as_slice(), parts.as_slice())
        }
        _ => naming.pass_by(world, node, place),
    }
}

/// Names the nodes of a tree.
#[cycle(walk)]
pub fn walk<'a>(
    naming: &mut Naming<'a>,
    world: &World<'_, 'a>,
    expr: &'a Expr,
) -> Result<(), Memory>
    ensures { OnOk result (naming_of naming.new ≡ through (noted (world_of world.now)) cut_back
        (tree_of expr.now) (naming_of naming.old)) }
{
    walk_form(naming, world, &expr.form)?;
    note_expr(naming, world, expr)
}

#[cycle(walk)]
fn walk_form<'a>(
    naming: &mut Naming<'a>,
    world: &World<'_, 'a>,
    form: &'a Form,
) -> Result<(), Memory>
    ensures { OnOk result (naming_of naming.new ≡
        through_parts (noted (world_of world.now)) cut_back (shape_of form.now)
        (naming_of naming.old)) }
{
    match form {
        Form::Block(parts) => walk_block(naming, world, parts.as_slice()),
        Form::Defer(part) => walk(naming, world, part.get()),
        Form::Let(_, part) => walk(naming, world, part.get()),
        Form::Def(_, parts) => walk_typed(naming, world, parts),
        Form::VarDef(_, parts) => walk_typed(naming, world, parts),
        Form::Set(_, parts) => walk_two(naming, world, parts),
        Form::Return(part) => walk_returned(naming, world, part),
        Form::If(parts) => walk_if(naming, world, parts),
        Form::Chain(operator, parts) => walk_chain(naming, world, *operator, parts),
        Form::Compare(_, parts) => walk_two(naming, world, parts),
        Form::Not(part) => walk_apart(naming, world, part.get()),
        Form::Neg(part) => walk(naming, world, part.get()),
        Form::Call(parts) => walk_applied(naming, world, parts),
        Form::Index(parts) => walk_applied(naming, world, parts),
        Form::Member(part, _) => walk(naming, world, part.get()),
        Form::Query(part) => walk(naming, world, part.get()),
        Form::Holes(_, parts) => walk_holes(naming, world, parts.as_slice()),
        Form::Tuple(parts) => walk_all(naming, world, parts.as_slice()),
        Form::Array(parts) => walk_all(naming, world, parts.as_slice()),
        Form::Map(parts) => walk_pairs(naming, world, parts.as_slice()),
        Form::Option(parts) => walk_block(naming, world, parts.as_slice()),
        Form::Logic(parts) => walk_block(naming, world, parts.as_slice()),
        Form::Instance(_, parts) => walk_givens(naming, world, parts.as_slice()),
        Form::Event(ty) => walk_event(naming, world, ty),
        Form::For(parts) => walk_for(naming, world, parts),
        Form::Loop(part) => walk(naming, world, part.get()),
        Form::BlockForm(part) => walk(naming, world, part.get()),
        Form::Branch(part) => walk(naming, world, part.get()),
        Form::Sync(parts) => walk_arms(naming, world, parts.as_slice()),
        Form::Race(parts) => walk_arms(naming, world, parts.as_slice()),
        Form::Rush(parts) => walk_arms(naming, world, parts.as_slice()),
        Form::Case(parts) => walk_cases(naming, world, parts),
        Form::Spawn(part) => walk(naming, world, part.get()),
        Form::Elements(_, part) => walk(naming, world, part.get()),
        Form::Entries(_, _, part) => walk(naming, world, part.get()),
        Form::Range(_, parts) => walk_two(naming, world, parts),
        Form::Arm(parts) => walk_two(naming, world, parts),
        Form::Break => Ok(()),
        Form::Int(_) => Ok(()),
        Form::Char(_) => Ok(()),
        Form::Text(_) => Ok(()),
        Form::True => Ok(()),
        Form::False => Ok(()),
        Form::This => Ok(()),
        Form::Name(_) => Ok(()),
        Form::Sleep(None) => Ok(()),
        Form::Sleep(Some(_)) => Ok(()),
        Form::IntPattern(_) => Ok(()),
        Form::MinusPattern(_) => Ok(()),
        Form::CharPattern(_) => Ok(()),
        Form::TextPattern(_) => Ok(()),
        Form::TruePattern => Ok(()),
        Form::FalsePattern => Ok(()),
        Form::EnumPattern(_, _) => Ok(()),
        Form::AnyPattern => Ok(()),
    }
}

#[cycle(walk)]
fn walk_block<'a>(
    naming: &mut Naming<'a>,
    world: &World<'_, 'a>,
    parts: &'a [Expr],
) -> Result<(), Memory>
    ensures { OnOk result (naming_of naming.new ≡
        apart cut_back (through_all (noted (world_of world.now)) cut_back
        (trees (map tree_of parts.now))) (naming_of naming.old)) }
{
    let mark = naming.mark();
    walk_all(naming, world, parts)?;
    naming.leave(mark);
    Ok(())
}

#[cycle(walk)]
fn walk_apart<'a>(
    naming: &mut Naming<'a>,
    world: &World<'_, 'a>,
    expr: &'a Expr,
) -> Result<(), Memory>
    ensures { OnOk result (naming_of naming.new ≡
        apart cut_back (through (noted (world_of world.now)) cut_back (tree_of expr.now))
        (naming_of naming.old)) }
{
    let mark = naming.mark();
    walk(naming, world, expr)?;
    naming.leave(mark);
    Ok(())
}

#[cycle(walk)]
fn walk_operand<'a>(
    naming: &mut Naming<'a>,
    world: &World<'_, 'a>,
    operator: Operator,
    expr: &'a Expr,
) -> Result<(), Memory>
    ensures { OnOk result (naming_of naming.new ≡
        operand cut_back operator (through (noted (world_of world.now)) cut_back (tree_of expr.now))
        (naming_of naming.old)) }
{
    match operator {
        Operator::Or => walk_apart(naming, world, expr),
        _ => walk(naming, world, expr),
    }
}

#[cycle(walk)]
fn walk_chain<'a>(
    naming: &mut Naming<'a>,
    world: &World<'_, 'a>,
    operator: Operator,
    two: &'a Two,
) -> Result<(), Memory>
    ensures { OnOk result (naming_of naming.new ≡
        operand cut_back operator (through (noted (world_of world.now)) cut_back (two_of two.now).1)
        (operand cut_back operator (through (noted (world_of world.now)) cut_back
        (two_of two.now).0) (naming_of naming.old))) }
{
    walk_operand(naming, world, operator, two.left.get())?;
    walk_operand(naming, world, operator, two.right.get())
}

#[cycle(walk)]
fn walk_two<'a>(naming: &mut Naming<'a>, world: &World<'_, 'a>, two: &'a Two) -> Result<(), Memory>
    ensures { OnOk result (naming_of naming.new ≡ through (noted (world_of world.now)) cut_back
        (two_of two.now).1 (through (noted (world_of world.now)) cut_back (two_of two.now).0
        (naming_of naming.old))) }
{
    walk(naming, world, two.left.get())?;
    walk(naming, world, two.right.get())
}

#[cycle(walk)]
fn walk_typed<'a>(
    naming: &mut Naming<'a>,
    world: &World<'_, 'a>,
    typed: &'a TypedValue,
) -> Result<(), Memory>
    ensures { OnOk result (naming_of naming.new ≡ through (noted (world_of world.now)) cut_back
        (typed_value_of typed.now).1
        (through_written (noted (world_of world.now)) true (typed_value_of typed.now).0
        (naming_of naming.old))) }
{
    walk_type(naming, world, true, &typed.ty)?;
    walk(naming, world, typed.value.get())
}

#[cycle(walk)]
fn walk_returned<'a>(
    naming: &mut Naming<'a>,
    world: &World<'_, 'a>,
    value: &'a Option<Boxed<Expr>>,
) -> Result<(), Memory>
    ensures { OnOk result (naming_of naming.new ≡
        through_parts (noted (world_of world.now)) cut_back
        (return_shape (option_map tree_of value.now)) (naming_of naming.old)) }
{
    match value {
        None => Ok(()),
        Some(value) => walk(naming, world, value.get()),
    }
}

#[cycle(walk)]
fn walk_if<'a>(
    naming: &mut Naming<'a>,
    world: &World<'_, 'a>,
    choice: &'a IfParts,
) -> Result<(), Memory>
    ensures { OnOk result (naming_of naming.new ≡
        through_parts (noted (world_of world.now)) cut_back
        (if_shape (trees (if_of choice.now).conditions) (if_of choice.now).taken
        (if_of choice.now).otherwise) (naming_of naming.old)) }
{
    let mark = naming.mark();
    walk_all(naming, world, choice.conditions.as_slice())?;
    walk(naming, world, choice.then.get())?;
    naming.leave(mark);
    match &choice.otherwise {
        None => Ok(()),
        Some(other) => walk(naming, world, other.get()),
    }
}

#[cycle(walk)]
fn walk_applied<'a>(
    naming: &mut Naming<'a>,
    world: &World<'_, 'a>,
    applied: &'a Applied,
) -> Result<(), Memory>
    ensures { OnOk result (naming_of naming.new ≡ through_all (noted (world_of world.now)) cut_back
        (trees (applied_of applied.now).1)
        (through (noted (world_of world.now)) cut_back (applied_of applied.now).0
        (naming_of naming.old))) }
{
    walk(naming, world, applied.callee.get())?;
    walk_all(naming, world, applied.args.as_slice())
}

#[cycle(walk)]
fn walk_for<'a>(
    naming: &mut Naming<'a>,
    world: &World<'_, 'a>,
    each: &'a ForParts,
) -> Result<(), Memory>
    ensures { OnOk result (naming_of naming.new ≡
        cut_back (naming_of naming.old)
        (through (noted (world_of world.now)) cut_back (for_of each.now).1
        (through_all (noted (world_of world.now)) cut_back (trees (for_of each.now).0)
        (naming_of naming.old)))) }
{
    let mark = naming.mark();
    walk_all(naming, world, each.clauses.as_slice())?;
    walk(naming, world, each.body.get())?;
    naming.leave(mark);
    Ok(())
}

#[cycle(walk)]
fn walk_cases<'a>(
    naming: &mut Naming<'a>,
    world: &World<'_, 'a>,
    cases: &'a Cases,
) -> Result<(), Memory>
    ensures { OnOk result (naming_of naming.new ≡ through_arms (noted (world_of world.now)) cut_back
        (trees (cases_of cases.now).1)
        (through (noted (world_of world.now)) cut_back (cases_of cases.now).0
        (naming_of naming.old))) }
{
    walk(naming, world, cases.subject.get())?;
    walk_arms(naming, world, cases.arms.as_slice())
}

#[cycle(walk)]
fn walk_all<'a>(
    naming: &mut Naming<'a>,
    world: &World<'_, 'a>,
    parts: &'a [Expr],
) -> Result<(), Memory>
    ensures { OnOk result (naming_of naming.new ≡ through_all (noted (world_of world.now)) cut_back
        (trees (map tree_of parts.now)) (naming_of naming.old)) }
{
    'parts: for part in parts {
        walk(naming, world, part)?;
    }
    Ok(())
}

#[cycle(walk)]
fn walk_arms<'a>(
    naming: &mut Naming<'a>,
    world: &World<'_, 'a>,
    parts: &'a [Expr],
) -> Result<(), Memory>
    ensures { OnOk result (naming_of naming.new ≡ through_arms (noted (world_of world.now)) cut_back
        (trees (map tree_of parts.now)) (naming_of naming.old)) }
{
    'parts: for part in parts {
        walk_apart(naming, world, part)?;
    }
    Ok(())
}

#[cycle(walk)]
fn walk_holes<'a>(
    naming: &mut Naming<'a>,
    world: &World<'_, 'a>,
    parts: &'a [Hole],
) -> Result<(), Memory>
    ensures { OnOk result (naming_of naming.new ≡
        through_holes (noted (world_of world.now)) cut_back (holes (map hole_of parts.now))
        (naming_of naming.old)) }
{
    'parts: for part in parts {
        walk(naming, world, part.value.get())?;
    }
    Ok(())
}

#[cycle(walk)]
fn walk_pairs<'a>(
    naming: &mut Naming<'a>,
    world: &World<'_, 'a>,
    parts: &'a [Pair],
) -> Result<(), Memory>
    ensures { OnOk result (naming_of naming.new ≡
        through_pairs (noted (world_of world.now)) cut_back (pairs (map pair_of parts.now))
        (naming_of naming.old)) }
{
    'parts: for part in parts {
        walk(naming, world, part.key.get())?;
        walk(naming, world, part.value.get())?;
    }
    Ok(())
}

#[cycle(walk)]
fn walk_givens<'a>(
    naming: &mut Naming<'a>,
    world: &World<'_, 'a>,
    parts: &'a [Given],
) -> Result<(), Memory>
    ensures { OnOk result (naming_of naming.new ≡
        through_givens (noted (world_of world.now)) cut_back (givens (map given_of parts.now))
        (naming_of naming.old)) }
{
    'parts: for part in parts {
        walk(naming, world, part.value.get())?;
    }
    Ok(())
}

fn walk_event<'a>(
    naming: &mut Naming<'a>,
    world: &World<'_, 'a>,
    ty: &Option<TyExpr>,
) -> Result<(), Memory>
    ensures { OnOk result (naming_of naming.new ≡
        through_parts (noted (world_of world.now)) cut_back (event_shape ty.now)
        (naming_of naming.old)) }
{
    match ty {
        None => Ok(()),
        Some(ty) => walk_type(naming, world, true, ty),
    }
}
