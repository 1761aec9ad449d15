//! The walk over blocks, statements and expressions.

ghost use Rattle.std.specs.Prelude.{◌≡◌, map, OnOk};
ghost use Rattle.std.specs.Option.{option_map};
ghost use Rattle.verse_tree.specs.View.{tree_of, shape_of, two_of, typed_value_of, if_of};
ghost use Rattle.verse_tree.specs.View.{applied_of, for_of, cases_of, hole_of, pair_of, given_of};
ghost use Rattle.verse_tree.specs.View.{trees, holes, pairs, givens, return_shape, if_shape};
ghost use Rattle.verse_tree.specs.View.{event_shape};
ghost use Rattle.verse_rules_walk.specs.Around.{value, freely, caught, repeated};
ghost use Rattle.verse_rules_walk.specs.Around as w;
ghost use Rattle.verse_rules_walk.specs.Nodes.{number_of_tree};
ghost use Rattle.verse_rules_walk.specs.Through.{through, through_shape, through_trees};
ghost use Rattle.verse_rules_walk.specs.Through.{through_arguments, through_holes, through_pairs};
ghost use Rattle.verse_rules_walk.specs.Through.{through_givens, through_written};
ghost use Rattle.verse_rules_walk.specs.Views.{around_of};

use crate::arounds::{Around, Used};
use crate::passes::{Part, Pass};
use crate::types::walk_type;
use sqlite_items::Boxed;
use verse_base::refusals::Memory;
use verse_tree::exprs::{
    Applied, Cases, Expr, ForParts, Form, Given, Hole, IfParts, Pair, Two, TypedValue,
};
use verse_tree::types::TyExpr;

/// Does a pass at all nodes of a tree.
#[cycle(walk)]
pub fn walk<'a, P: Pass>(
    pass: &P,
    seen: &mut P::Seen,
    around: Around<'a>,
    expr: &'a Expr,
) -> Result<(), Memory>
    ensures { OnOk result (P.sight seen.new ≡ through (P.step pass.now) (around_of around.entry)
        (tree_of expr.now) (P.sight seen.old)) }
{
    walk_form(pass, seen, expr.node, around, &expr.form)?;
    pass.note(seen, around, Part::Expr(expr))
}

#[cycle(walk)]
fn walk_form<'a, P: Pass>(
    pass: &P,
    seen: &mut P::Seen,
    number: u32,
    around: Around<'a>,
    form: &'a Form,
) -> Result<(), Memory>
    ensures { OnOk result (P.sight seen.new ≡ through_shape (P.step pass.now) number
        (around_of around.entry) (shape_of form.now) (P.sight seen.old)) }
{
    let free = around.freely();
    match form {
        Form::Block(parts) => walk_all(pass, seen, free, parts.as_slice()),
        Form::Defer(part) => walk(pass, seen, around.deferred(), part.get()),
        Form::Let(_, part) => walk(pass, seen, free, part.get()),
        Form::Def(_, parts) => walk_typed(pass, seen, around, parts),
        Form::VarDef(_, parts) => walk_typed(pass, seen, around, parts),
        Form::Set(_, parts) => walk_two(pass, seen, around.used_as(Used::Target), free, parts),
        Form::Return(part) => walk_returned(pass, seen, around, part),
        Form::If(parts) => walk_if(pass, seen, around, parts),
        Form::Chain(operator, parts) => {
            walk_two(pass, seen, around.left_of(*operator), free, parts)
        }
        Form::Compare(_, parts) => walk_two(pass, seen, free, free, parts),
        Form::Not(part) => walk(pass, seen, around.caught(), part.get()),
        Form::Neg(part) => walk(pass, seen, free, part.get()),
        Form::Call(parts) => walk_applied(pass, seen, around.used_as(Used::Callee), around, parts),
        Form::Index(parts) => walk_applied(pass, seen, around.indexed(), around, parts),
        Form::Member(part, _) => walk(pass, seen, around.used_as(Used::Object), part.get()),
        Form::Query(part) => walk(pass, seen, free, part.get()),
        Form::Holes(_, parts) => walk_holes(pass, seen, free, parts.as_slice()),
        Form::Tuple(parts) => walk_all(pass, seen, free, parts.as_slice()),
        Form::Array(parts) => walk_all(pass, seen, free, parts.as_slice()),
        Form::Map(parts) => walk_pairs(pass, seen, free, parts.as_slice()),
        Form::Option(parts) => walk_all(pass, seen, around.caught(), parts.as_slice()),
        Form::Logic(parts) => walk_all(pass, seen, around.caught(), parts.as_slice()),
        Form::Instance(_, parts) => walk_givens(pass, seen, free, parts.as_slice()),
        Form::Event(ty) => walk_event(pass, seen, number, around, ty),
        Form::For(parts) => walk_for(pass, seen, around, parts),
        Form::Loop(part) => walk(pass, seen, around.looped(number), part.get()),
        Form::BlockForm(part) => walk(pass, seen, free, part.get()),
        Form::Branch(part) => walk(pass, seen, around.armed(), part.get()),
        Form::Sync(parts) => walk_all(pass, seen, around.armed(), parts.as_slice()),
        Form::Race(parts) => walk_all(pass, seen, around.armed(), parts.as_slice()),
        Form::Rush(parts) => walk_all(pass, seen, around.armed(), parts.as_slice()),
        Form::Case(parts) => walk_cases(pass, seen, free, parts),
        Form::Spawn(part) => walk(pass, seen, around.used_as(Used::Spawned), part.get()),
        Form::Elements(_, part) => walk(pass, seen, free, part.get()),
        Form::Entries(_, _, part) => walk(pass, seen, free, part.get()),
        Form::Range(_, parts) => walk_two(pass, seen, free, free, parts),
        Form::Arm(parts) => walk_two(pass, seen, free, free, parts),
        Form::Break => Ok(()),
        Form::Int(_) => Ok(()),
        Form::Char(_) => Ok(()),
        Form::Text(_) => Ok(()),
        Form::True => Ok(()),
        Form::False => Ok(()),
        Form::This => Ok(()),
        Form::Name(_) => Ok(()),
        Form::Sleep(None) => Ok(()),
        Form::Sleep(Some(_)) => Ok(()),
        Form::IntPattern(_) => Ok(()),
        Form::MinusPattern(_) => Ok(()),
        Form::CharPattern(_) => Ok(()),
        Form::TextPattern(_) => Ok(()),
        Form::TruePattern => Ok(()),
        Form::FalsePattern => Ok(()),
        Form::EnumPattern(_, _) => Ok(()),
        Form::AnyPattern => Ok(()),
    }
}

#[cycle(walk)]
fn walk_two<'a, P: Pass>(
    pass: &P,
    seen: &mut P::Seen,
    left: Around<'a>,
    right: Around<'a>,
    two: &'a Two,
) -> Result<(), Memory>
    ensures { OnOk result (P.sight seen.new ≡ through (P.step pass.now) (around_of right.entry)
        (two_of two.now).1 (through (P.step pass.now) (around_of left.entry) (two_of two.now).0
        (P.sight seen.old))) }
{
    walk(pass, seen, left, two.left.get())?;
    walk(pass, seen, right, two.right.get())
}

#[cycle(walk)]
fn walk_typed<'a, P: Pass>(
    pass: &P,
    seen: &mut P::Seen,
    around: Around<'a>,
    typed: &'a TypedValue,
) -> Result<(), Memory>
    ensures { OnOk result (P.sight seen.new ≡
        through (P.step pass.now) (w.used_as (value (typed_value_of typed.now).0)
        (around_of around.entry)) (typed_value_of typed.now).1
        (through_written (P.step pass.now) (around_of around.entry) (typed_value_of typed.now).0
        (P.sight seen.old))) }
{
    walk_type(pass, seen, around, &typed.ty)?;
    walk(
        pass,
        seen,
        around.used_as(Used::Value(&typed.ty)),
        typed.value.get(),
    )
}

#[cycle(walk)]
fn walk_returned<'a, P: Pass>(
    pass: &P,
    seen: &mut P::Seen,
    around: Around<'a>,
    value: &'a Option<Boxed<Expr>>,
) -> Result<(), Memory>
    ensures { OnOk result (P.sight seen.new ≡
        through_shape (P.step pass.now) 0 (around_of around.entry)
        (return_shape (option_map tree_of value.now)) (P.sight seen.old)) }
{
    match value {
        None => Ok(()),
        Some(value) => walk(pass, seen, around.freely(), value.get()),
    }
}

#[cycle(walk)]
fn walk_if<'a, P: Pass>(
    pass: &P,
    seen: &mut P::Seen,
    around: Around<'a>,
    choice: &'a IfParts,
) -> Result<(), Memory>
    ensures { OnOk result (P.sight seen.new ≡
        through_shape (P.step pass.now) 0 (around_of around.entry)
        (if_shape (trees (if_of choice.now).conditions) (if_of choice.now).taken
        (if_of choice.now).otherwise) (P.sight seen.old)) }
{
    walk_all(pass, seen, around.caught(), choice.conditions.as_slice())?;
    walk(pass, seen, around.freely(), choice.then.get())?;
    match &choice.otherwise {
        None => Ok(()),
        Some(other) => walk(pass, seen, around.freely(), other.get()),
    }
}

#[cycle(walk)]
fn walk_applied<'a, P: Pass>(
    pass: &P,
    seen: &mut P::Seen,
    round_callee: Around<'a>,
    around: Around<'a>,
    applied: &'a Applied,
) -> Result<(), Memory>
    ensures { OnOk result (P.sight seen.new ≡
        through_arguments (P.step pass.now) (around_of around.entry)
        (number_of_tree (applied_of applied.now).0) 0 (trees (applied_of applied.now).1)
        (through (P.step pass.now) (around_of round_callee.entry) (applied_of applied.now).0
        (P.sight seen.old))) }
{
    walk(pass, seen, round_callee, applied.callee.get())?;
    walk_arguments(
        pass,
        seen,
        around,
        applied.callee.get().node,
        applied.args.as_slice(),
    )
}

#[cycle(walk)]
fn walk_for<'a, P: Pass>(
    pass: &P,
    seen: &mut P::Seen,
    around: Around<'a>,
    each: &'a ForParts,
) -> Result<(), Memory>
    ensures { OnOk result (P.sight seen.new ≡
        through (P.step pass.now) (repeated (around_of around.entry)) (for_of each.now).1
        (through_trees (P.step pass.now) (caught (around_of around.entry))
        (trees (for_of each.now).0) (P.sight seen.old))) }
{
    walk_all(pass, seen, around.caught(), each.clauses.as_slice())?;
    walk(pass, seen, around.repeated(), each.body.get())
}

#[cycle(walk)]
fn walk_cases<'a, P: Pass>(
    pass: &P,
    seen: &mut P::Seen,
    around: Around<'a>,
    cases: &'a Cases,
) -> Result<(), Memory>
    ensures { OnOk result (P.sight seen.new ≡
        through_trees (P.step pass.now) (around_of around.entry) (trees (cases_of cases.now).1)
        (through (P.step pass.now) (around_of around.entry) (cases_of cases.now).0
        (P.sight seen.old))) }
{
    walk(pass, seen, around, cases.subject.get())?;
    walk_all(pass, seen, around, cases.arms.as_slice())
}

#[cycle(walk)]
fn walk_all<'a, P: Pass>(
    pass: &P,
    seen: &mut P::Seen,
    around: Around<'a>,
    parts: &'a [Expr],
) -> Result<(), Memory>
    ensures { OnOk result (P.sight seen.new ≡
        through_trees (P.step pass.now) (around_of around.entry) (trees (map tree_of parts.now))
        (P.sight seen.old)) }
{
    'parts: for part in parts {
        walk(pass, seen, around, part)?;
    }
    Ok(())
}

#[cycle(walk)]
fn walk_arguments<'a, P: Pass>(
    pass: &P,
    seen: &mut P::Seen,
    around: Around<'a>,
    callee: u32,
    parts: &'a [Expr],
) -> Result<(), Memory>
    ensures { OnOk result (P.sight seen.new ≡
        through_arguments (P.step pass.now) (around_of around.entry) callee 0
        (trees (map tree_of parts.now)) (P.sight seen.old)) }
{
    let mut place = 0usize;
    'parts: for part in parts {
        walk(
            pass,
            seen,
            around.used_as(Used::Argument(callee, place)),
            part,
        )?;
        place += 1;
    }
    Ok(())
}

#[cycle(walk)]
fn walk_holes<'a, P: Pass>(
    pass: &P,
    seen: &mut P::Seen,
    around: Around<'a>,
    parts: &'a [Hole],
) -> Result<(), Memory>
    ensures { OnOk result (P.sight seen.new ≡
        through_holes (P.step pass.now) (around_of around.entry) (holes (map hole_of parts.now))
        (P.sight seen.old)) }
{
    'parts: for part in parts {
        walk(pass, seen, around, part.value.get())?;
    }
    Ok(())
}

#[cycle(walk)]
fn walk_pairs<'a, P: Pass>(
    pass: &P,
    seen: &mut P::Seen,
    around: Around<'a>,
    parts: &'a [Pair],
) -> Result<(), Memory>
    ensures { OnOk result (P.sight seen.new ≡
        through_pairs (P.step pass.now) (around_of around.entry) (pairs (map pair_of parts.now))
        (P.sight seen.old)) }
{
    'parts: for part in parts {
        walk(pass, seen, around, part.key.get())?;
        walk(pass, seen, around, part.value.get())?;
    }
    Ok(())
}

#[cycle(walk)]
fn walk_givens<'a, P: Pass>(
    pass: &P,
    seen: &mut P::Seen,
    around: Around<'a>,
    parts: &'a [Given],
) -> Result<(), Memory>
    ensures { OnOk result (P.sight seen.new ≡
        through_givens (P.step pass.now) (around_of around.entry) (givens (map given_of parts.now))
        (P.sight seen.old)) }
{
    'parts: for part in parts {
        walk(pass, seen, around, part.value.get())?;
    }
    Ok(())
}

fn walk_event<P: Pass>(
    pass: &P,
    seen: &mut P::Seen,
    number: u32,
    around: Around<'_>,
    ty: &Option<TyExpr>,
) -> Result<(), Memory>
    ensures { OnOk result (P.sight seen.new ≡ through_shape (P.step pass.now) number
        (around_of around.entry) (event_shape ty.now) (P.sight seen.old)) }
{
    match ty {
        None => Ok(()),
        Some(ty) => walk_type(pass, seen, around, ty),
    }
}
