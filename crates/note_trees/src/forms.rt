//! One case for each form.

ghost use Rattle.std.specs.Prelude.{◌≡◌, OnOk};
ghost use Rattle.std.specs.Option.{option_map};
ghost use Rattle.verse_tree.specs.Tree as t;
ghost use Rattle.verse_tree.specs.View.{tree_of, two_of, typed_value_of, shape_of, return_shape};
ghost use Rattle.verse_sorts.specs.Sorts as s;
ghost use Rattle.lower_expr.specs.Locals.{scope_of};
ghost use Rattle.lower_notes.specs.States.{gives};
ghost use Rattle.lower_notes.specs.Stretches.{one, ◌then◌};
ghost use Rattle.lower_notes.specs.Applied.{returning};
ghost use Rattle.note_stretches.specs.Noted.{noted, walked};
ghost use Rattle.note_parts.specs.Parts.{Notes, form_walk, tree_walk, no_place};

use lower_code::arounds::Around;
use lower_expr::scopes::Scopes;
use lower_items::tables::Tables;
use note_applied::leaving::{breaking, returning};
use note_blocks::blocks::{block, constant, returned, variable};
use note_calls::calls::{call, index, spawn};
use note_cases::cases::case;
use note_failing::failing::{and, if_form, logic, negation, option, or};
use note_loops::loops::{for_form, loop_form};
use note_members::members::member;
use note_parts::noter::Noter;
use note_sorts::kinds::Kind;
use note_stretches::noting::Noting;
use note_targets::targets::set;
use note_tasks::tasks::{branch, group};
use note_values::instances::instance;
use note_values::lists::{array, tuple};
use note_values::maps::map;
use note_values::names::{self, this};
use note_values::operators::{arithmetic, compare, minus, query};
use note_values::texts;
use sqlite_items::Boxed;
use verse_base::places::Place;
use verse_base::refusals::Memory;
use verse_tree::exprs::{Expr, Form, Operator, Two, TypedValue};
use verse_tree::programs::Program;

fn value(typed: &TypedValue) -> &Expr
    ensures { tree_of result.now ≡ (typed_value_of typed.now).1 }
{
    typed.value.get()
}

/// `E or F`, `E and F`, `E + F`, `E - F`, `E * F`; `E / F` by itself is wrong.
fn chain<
    'a,
    F: Fn(
        &'a Tables<'a>,
        u32,
        &mut Noting,
        &mut Scopes<'a>,
        Around,
        &'a Expr,
    ) -> Result<(), Memory>,
>(
    noter: &Noter<'a, F>,
    noting: &mut Noting,
    scopes: &mut Scopes<'a>,
    around: Around,
    operator: Operator,
    two: &'a Two,
) -> Result<(), Memory>
    requires nests { Notes noter.now.depth (F.pre noter.now.nested)
        (F.post noter.now.nested) }
    ensures states { OnOk result (noted noting.new ≡ walked (form_walk
        noter.now.tables.now.program.now (t.Shape.chained operator (two_of two.now).0 (two_of two.now).1) 0 no_place
        (scope_of scopes.old) around) (noted noting.old)) }
    ensures scopes { OnOk result (scope_of scopes.new ≡ scope_of scopes.old) }
{
    match operator {
        Operator::Or => or(noter, noting, scopes, around, two),
        Operator::And => and(noter, noting, scopes, around, two),
        Operator::Add => arithmetic(noter, noting, scopes, around, Operator::Add, two),
        Operator::Sub => arithmetic(noter, noting, scopes, around, Operator::Sub, two),
        Operator::Mul => arithmetic(noter, noting, scopes, around, Operator::Mul, two),
        Operator::Div => noting.ends(),
    }
}

/// `return` with or without a value.
fn leave<
    'a,
    F: Fn(
        &'a Tables<'a>,
        u32,
        &mut Noting,
        &mut Scopes<'a>,
        Around,
        &'a Expr,
    ) -> Result<(), Memory>,
>(
    noter: &Noter<'a, F>,
    noting: &mut Noting,
    scopes: &mut Scopes<'a>,
    around: Around,
    value: &'a Option<Boxed<Expr>>,
) -> Result<(), Memory>
    requires nests { Notes noter.now.depth (F.pre noter.now.nested)
        (F.post noter.now.nested) }
    ensures states { OnOk result (noted noting.new ≡ walked (form_walk
        noter.now.tables.now.program.now (return_shape (option_map tree_of value.now)) 0 no_place
        (scope_of scopes.old) around) (noted noting.old)) }
    ensures scopes { OnOk result (scope_of scopes.new ≡ scope_of scopes.old) }
{
    match value {
        Some(part) => returned(noter, noting, scopes, around, part.get()),
        None => return_unit(noting, noter.tables.program, around),
    }
}

#[tactic(auto, using(note_stretches::proofs::Laws::walked_then))]
fn return_unit(noting: &mut Noting, program: &Program, around: Around) -> Result<(), Memory>
    ensures { OnOk result (noted noting.new ≡ walked (one (gives 0 s.unit) then returning around)
        (noted noting.old)) }
{
    noting.push(program, Kind::Unit)?;
    returning(noting, around)?;
    Ok(())
}

/// A form, whose parts are noted by what is nested.
fn form<
    'a,
    F: Fn(
        &'a Tables<'a>,
        u32,
        &mut Noting,
        &mut Scopes<'a>,
        Around,
        &'a Expr,
    ) -> Result<(), Memory>,
>(
    noter: &Noter<'a, F>,
    noting: &mut Noting,
    scopes: &mut Scopes<'a>,
    around: Around,
    node: u32,
    place: Place,
    form: &'a Form,
) -> Result<(), Memory>
    requires nests { Notes noter.now.depth (F.pre noter.now.nested)
        (F.post noter.now.nested) }
    ensures states { OnOk result (noted noting.new ≡ walked (form_walk
        noter.now.tables.now.program.now (shape_of form.now)
        node place (scope_of scopes.old) around) (noted noting.old)) }
    ensures scopes { OnOk result (scope_of scopes.new ≡ scope_of scopes.old) }
{
    match form {
        Form::Block(parts) => block(noter, noting, scopes, around, parts.as_slice()),
        Form::Defer(_) => noting.ends(),
        Form::Let(_, value) => constant(noter, noting, scopes, around, node, value.get()),
        Form::Def(_, typed) => constant(noter, noting, scopes, around, node, value(typed)),
        Form::VarDef(_, typed) => variable(noter, noting, scopes, around, node, value(typed)),
        Form::Set(assign, two) => set(noter, noting, scopes, around, *assign, two),
        Form::Return(value) => leave(noter, noting, scopes, around, value),
        Form::Break => breaking(noting, around),
        Form::If(parts) => if_form(noter, noting, scopes, around, parts),
        Form::Chain(operator, two) => chain(noter, noting, scopes, around, *operator, two),
        Form::Compare(operator, two) => compare(noter, noting, scopes, around, *operator, two),
        Form::Not(part) => negation(noter, noting, scopes, around, part.get()),
        Form::Neg(part) => minus(noter, noting, scopes, around, part.get()),
        Form::Call(parts) => call(noter, noting, scopes, around, place, parts),
        Form::Index(parts) => index(noter, noting, scopes, around, place, parts),
        Form::Member(part, name) => member(
            noter,
            noting,
            scopes,
            around,
            node,
            part.get(),
            name.as_slice(),
        ),
        Form::Query(part) => query(noter, noting, scopes, around, part.get()),
        Form::Int(_) => noting.last(),
        Form::Char(_) => noting.last(),
        Form::Text(_) => noting.last(),
        Form::Holes(first, parts) => texts::text(
            noter,
            noting,
            scopes,
            around,
            first.as_slice(),
            parts.as_slice(),
        ),
        Form::True => noting.last(),
        Form::False => noting.last(),
        Form::This => this(noting, scopes),
        Form::Name(name) => names::name(
            noter.tables.program,
            noting,
            scopes,
            node,
            name.as_slice(),
        ),
        Form::Tuple(parts) => tuple(noter, noting, scopes, around, parts.as_slice()),
        Form::Array(parts) => array(noter, noting, scopes, around, parts.as_slice()),
        Form::Map(parts) => map(noter, noting, scopes, around, node, parts.as_slice()),
        Form::Option(parts) => option(noter, noting, scopes, around, node, parts.as_slice()),
        Form::Logic(parts) => logic(noter, noting, scopes, around, node, parts.as_slice()),
        Form::Instance(_, parts) => instance(noter, noting, scopes, around, node, parts.as_slice()),
        Form::Event(_) => noting.last(),
        Form::For(parts) => for_form(noter, noting, scopes, around, node, parts),
        Form::Loop(part) => loop_form(noter, noting, scopes, around, part.get()),
        Form::BlockForm(part) => noter.part(noting, scopes, around, part.get()),
        Form::Branch(part) => branch(noter, noting, scopes, around, node, part.get()),
        Form::Sync(parts) => group(noter, noting, scopes, node, parts.as_slice()),
        Form::Race(parts) => group(noter, noting, scopes, node, parts.as_slice()),
        Form::Rush(parts) => group(noter, noting, scopes, node, parts.as_slice()),
        Form::Case(cases) => case(noter, noting, scopes, around, cases),
        Form::Spawn(part) => spawn(noter, noting, scopes, around, part.get()),
        Form::Sleep(_) => noting.last(),
        Form::Elements(..) => noting.ends(),
        Form::Entries(..) => noting.ends(),
        Form::Range(..) => noting.ends(),
        Form::Arm(_) => noting.ends(),
        Form::IntPattern(_) => noting.ends(),
        Form::MinusPattern(_) => noting.ends(),
        Form::CharPattern(_) => noting.ends(),
        Form::TextPattern(_) => noting.ends(),
        Form::TruePattern => noting.ends(),
        Form::FalsePattern => noting.ends(),
        Form::EnumPattern(..) => noting.ends(),
        Form::AnyPattern => noting.ends(),
    }
}

/// An expression, whose parts are noted by what is nested: behind it stands what stood before it,
/// with its value.
pub(crate) fn expression<
    'a,
    F: Fn(
        &'a Tables<'a>,
        u32,
        &mut Noting,
        &mut Scopes<'a>,
        Around,
        &'a Expr,
    ) -> Result<(), Memory>,
>(
    noter: &Noter<'a, F>,
    noting: &mut Noting,
    scopes: &mut Scopes<'a>,
    around: Around,
    expr: &'a Expr,
) -> Result<(), Memory>
    requires nests { Notes noter.now.depth (F.pre noter.now.nested)
        (F.post noter.now.nested) }
    ensures states { OnOk result (noted noting.new ≡ walked (tree_walk
        noter.now.tables.now.program.now (tree_of expr.now) (scope_of scopes.old) around) (noted noting.old)) }
    ensures scopes { OnOk result (scope_of scopes.new ≡ scope_of scopes.old) }
{
    let before = noting.standing()?;
    form(
        noter, noting, scopes, around, expr.node, expr.place, &expr.form,
    )?;
    noting.value(noter.tables.program, before, Kind::Node(expr.node))?;
    Ok(())
}
