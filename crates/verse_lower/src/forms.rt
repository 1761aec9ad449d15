//! One case for each form.

ghost use Rattle.std.specs.Prelude.{◌≡◌, ℕ, Option, OnOk};
ghost use Rattle.std.specs.Option.{option_map};
ghost use Rattle.verse_tree.specs.Tree as t;
ghost use Rattle.verse_tree.specs.View.{tree_of, two_of, typed_value_of, shape_of, return_shape};
ghost use Rattle.verse_base.specs.declared.places.Place.{Place};
ghost use Rattle.lower_expr.specs.Building.{built, made};
ghost use Rattle.lower_expr.specs.Locals.{scope_of};
ghost use Rattle.verse_code.specs.declared.operations.Op.TheVariants as o;
ghost use Rattle.lower_code.specs.Pieces.{one, ◌then◌};
ghost use Rattle.lower_code.specs.Arounds.{returning};
ghost use Rattle.lower_task.specs.Tasks.{sleep_op};
ghost use Rattle.lower_parts.specs.Parts.{Lowers, form_code, tree_code, no_place};

use lower_blocks::blocks::{block, constant, returned, variable};
use lower_blocks::cases::case;
use lower_blocks::failing::{and, if_form, logic, negation, option, or};
use lower_blocks::loops::{for_form, loop_form};
use lower_calls::calls::{call, index, spawn};
use lower_calls::members::member;
use lower_calls::targets::set;
use lower_calls::tasks::{branch, group};
use lower_code::arounds::Around;
use lower_expr::builder::Builder;
use lower_expr::scopes::Scopes;
use lower_items::tables::Tables;
use lower_parts::lowering::Lowering;
use lower_task::groups::{Kind, sleep};
use lower_values::instances::instance;
use lower_values::lists::{array, tuple};
use lower_values::maps::map;
use lower_values::names::{self, this};
use lower_values::operators::{arithmetic, compare, minus, query};
use lower_values::texts;
use sqlite_items::Boxed;
use verse_base::places::Place;
use verse_base::refusals::Memory;
use verse_code::operations::Op;
use verse_tree::exprs::{Expr, Form, Operator, Two, TypedValue};

fn value(typed: &TypedValue) -> &Expr
    ensures { tree_of result.now ≡ (typed_value_of typed.now).1 }
{
    typed.value.get()
}

/// `E or F`, `E and F`, `E + F`, `E - F`, `E * F`; `E / F` by itself is wrong.
fn chain<
    'a,
    F: Fn(
        &'a Tables<'a>,
        u32,
        &mut Builder,
        &mut Scopes<'a>,
        Around,
        &'a Expr,
    ) -> Result<(), Memory>,
>(
    lowering: &Lowering<'a, F>,
    builder: &mut Builder,
    scopes: &mut Scopes<'a>,
    around: Around,
    node: u32,
    place: Place,
    operator: Operator,
    two: &'a Two,
) -> Result<(), Memory>
    requires nests { Lowers lowering.now.depth (F.pre lowering.now.nested)
        (F.post lowering.now.nested) }
    ensures code { OnOk result (built builder.new ≡ made (form_code
        lowering.now.tables.now.program.now (t.Shape.chained operator (two_of two.now).0 (two_of
        two.now).1)
        node place (scope_of scopes.old) around) (built builder.old)) }
    ensures scopes { OnOk result (scope_of scopes.new ≡ scope_of scopes.old) }
{
    match operator {
        Operator::Or => or(lowering, builder, scopes, around, two),
        Operator::And => and(lowering, builder, scopes, around, two),
        Operator::Add => arithmetic(
            lowering,
            builder,
            scopes,
            around,
            node,
            place,
            Operator::Add,
            two,
        ),
        Operator::Sub => arithmetic(
            lowering,
            builder,
            scopes,
            around,
            node,
            place,
            Operator::Sub,
            two,
        ),
        Operator::Mul => arithmetic(
            lowering,
            builder,
            scopes,
            around,
            node,
            place,
            Operator::Mul,
            two,
        ),
        Operator::Div => builder.stuck(),
    }
}

/// `return` with or without a value.
fn leave<
    'a,
    F: Fn(
        &'a Tables<'a>,
        u32,
        &mut Builder,
        &mut Scopes<'a>,
        Around,
        &'a Expr,
    ) -> Result<(), Memory>,
>(
    lowering: &Lowering<'a, F>,
    builder: &mut Builder,
    scopes: &mut Scopes<'a>,
    around: Around,
    value: &'a Option<Boxed<Expr>>,
) -> Result<(), Memory>
    requires nests { Lowers lowering.now.depth (F.pre lowering.now.nested)
        (F.post lowering.now.nested) }
    ensures code { OnOk result (built builder.new ≡ made (form_code
        lowering.now.tables.now.program.now (return_shape (option_map tree_of value.now))
        0 no_place (scope_of scopes.old) around) (built builder.old)) }
    ensures scopes { OnOk result (scope_of scopes.new ≡ scope_of scopes.old) }
{
    match value {
        Some(part) => returned(lowering, builder, scopes, around, part.get()),
        None => return_unit(builder, around),
    }
}

#[tactic(auto, using(lower_expr::proofs::Laws::made_then))]
fn return_unit(builder: &mut Builder, around: Around) -> Result<(), Memory>
    ensures { OnOk result (built builder.new ≡ made (one o.Unit then returning around) (built
        builder.old)) }
{
    builder.one(Op::Unit)?;
    builder.returning(around)?;
    Ok(())
}

fn sleeping(builder: &mut Builder, duration: &Option<u64>) -> Result<(), Memory>
    ensures { OnOk result (built builder.new ≡ made (one (sleep_op duration.now)) (built
        builder.old)) }
{
    builder.one(sleep(duration)?)
}

/// The code of a form, whose parts are lowered by what is nested.
fn form<
    'a,
    F: Fn(
        &'a Tables<'a>,
        u32,
        &mut Builder,
        &mut Scopes<'a>,
        Around,
        &'a Expr,
    ) -> Result<(), Memory>,
>(
    lowering: &Lowering<'a, F>,
    builder: &mut Builder,
    scopes: &mut Scopes<'a>,
    around: Around,
    node: u32,
    place: Place,
    form: &'a Form,
) -> Result<(), Memory>
    requires nests { Lowers lowering.now.depth (F.pre lowering.now.nested)
        (F.post lowering.now.nested) }
    ensures code { OnOk result (built builder.new ≡ made (form_code
        lowering.now.tables.now.program.now (shape_of form.now)
        node place (scope_of scopes.old) around) (built builder.old)) }
    ensures scopes { OnOk result (scope_of scopes.new ≡ scope_of scopes.old) }
{
    match form {
        Form::Block(parts) => block(lowering, builder, scopes, around, parts.as_slice()),
        Form::Defer(_) => builder.stuck(),
        Form::Let(_, value) => constant(lowering, builder, scopes, around, value.get()),
        Form::Def(_, typed) => constant(lowering, builder, scopes, around, value(typed)),
        Form::VarDef(_, typed) => variable(lowering, builder, scopes, around, place, value(typed)),
        Form::Set(assign, two) => set(lowering, builder, scopes, around, place, *assign, two),
        Form::Return(value) => leave(lowering, builder, scopes, around, value),
        Form::Break => builder.breaking(around),
        Form::If(parts) => if_form(lowering, builder, scopes, around, parts),
        Form::Chain(operator, two) => chain(
            lowering, builder, scopes, around, node, place, *operator, two,
        ),
        Form::Compare(operator, two) => compare(
            lowering, builder, scopes, around, place, *operator, two,
        ),
        Form::Not(part) => negation(lowering, builder, scopes, around, part.get()),
        Form::Neg(part) => minus(lowering, builder, scopes, around, place, part.get()),
        Form::Call(parts) => call(lowering, builder, scopes, around, place, parts),
        Form::Index(parts) => index(lowering, builder, scopes, around, place, parts),
        Form::Member(part, name) => member(
            lowering,
            builder,
            scopes,
            around,
            node,
            part.get(),
            name.as_slice(),
        ),
        Form::Query(part) => query(lowering, builder, scopes, around, place, part.get()),
        Form::Int(number) => builder.one(Op::Int(*number)),
        Form::Char(number) => builder.one(Op::Char(*number as u32)),
        Form::Text(text) => builder.texted(text.as_slice()),
        Form::Holes(first, parts) => texts::text(
            lowering,
            builder,
            scopes,
            around,
            place,
            first.as_slice(),
            parts.as_slice(),
        ),
        Form::True => builder.one(Op::True),
        Form::False => builder.one(Op::False),
        Form::This => this(builder, scopes),
        Form::Name(name) => names::name(
            lowering.tables.program,
            builder,
            scopes,
            node,
            name.as_slice(),
        ),
        Form::Tuple(parts) => tuple(lowering, builder, scopes, around, place, parts.as_slice()),
        Form::Array(parts) => array(lowering, builder, scopes, around, place, parts.as_slice()),
        Form::Map(parts) => map(lowering, builder, scopes, around, place, parts.as_slice()),
        Form::Option(parts) => option(lowering, builder, scopes, around, place, parts.as_slice()),
        Form::Logic(parts) => logic(lowering, builder, scopes, around, parts.as_slice()),
        Form::Instance(_, parts) => instance(
            lowering,
            builder,
            scopes,
            around,
            node,
            place,
            parts.as_slice(),
        ),
        Form::Event(_) => builder.placed(place, Op::Event(0)),
        Form::For(parts) => for_form(lowering, builder, scopes, around, place, parts),
        Form::Loop(part) => loop_form(lowering, builder, scopes, around, part.get()),
        Form::BlockForm(part) => lowering.part(builder, scopes, around, part.get()),
        Form::Branch(part) => branch(lowering, builder, scopes, around, part.get()),
        Form::Sync(parts) => group(
            lowering,
            builder,
            scopes,
            Kind::Sync,
            place,
            parts.as_slice(),
        ),
        Form::Race(parts) => group(
            lowering,
            builder,
            scopes,
            Kind::Race,
            place,
            parts.as_slice(),
        ),
        Form::Rush(parts) => group(
            lowering,
            builder,
            scopes,
            Kind::Rush,
            place,
            parts.as_slice(),
        ),
        Form::Case(cases) => case(lowering, builder, scopes, around, cases),
        Form::Spawn(part) => spawn(lowering, builder, scopes, around, part.get()),
        Form::Sleep(duration) => sleeping(builder, duration),
        Form::Elements(..) => builder.stuck(),
        Form::Entries(..) => builder.stuck(),
        Form::Range(..) => builder.stuck(),
        Form::Arm(_) => builder.stuck(),
        Form::IntPattern(_) => builder.stuck(),
        Form::MinusPattern(_) => builder.stuck(),
        Form::CharPattern(_) => builder.stuck(),
        Form::TextPattern(_) => builder.stuck(),
        Form::TruePattern => builder.stuck(),
        Form::FalsePattern => builder.stuck(),
        Form::EnumPattern(..) => builder.stuck(),
        Form::AnyPattern => builder.stuck(),
    }
}

/// The code of an expression, whose parts are lowered by what is nested.
pub(crate) fn expression<
    'a,
    F: Fn(
        &'a Tables<'a>,
        u32,
        &mut Builder,
        &mut Scopes<'a>,
        Around,
        &'a Expr,
    ) -> Result<(), Memory>,
>(
    lowering: &Lowering<'a, F>,
    builder: &mut Builder,
    scopes: &mut Scopes<'a>,
    around: Around,
    expr: &'a Expr,
) -> Result<(), Memory>
    requires nests { Lowers lowering.now.depth (F.pre lowering.now.nested)
        (F.post lowering.now.nested) }
    ensures code { OnOk result (built builder.new ≡ made (tree_code
        lowering.now.tables.now.program.now (tree_of expr.now) (scope_of scopes.old) around)
        (built builder.old)) }
    ensures scopes { OnOk result (scope_of scopes.new ≡ scope_of scopes.old) }
{
    form(
        lowering, builder, scopes, around, expr.node, expr.place, &expr.form,
    )
}
