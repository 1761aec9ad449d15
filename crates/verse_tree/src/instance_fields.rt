//! The fields of the classes of instance expressions.

ghost use Rattle.std.specs.Prelude.{◌≡◌, ◌+◌, min, map, slice_get};
ghost use Rattle.std.specs.Option.{option_map};
ghost use Rattle.verse_tree.specs.View.{tree_of, shape_of, two_of, typed_value_of, if_of};
ghost use Rattle.verse_tree.specs.View.{applied_of, for_of, cases_of, hole_of, pair_of, given_of};
ghost use Rattle.verse_tree.specs.View.{trees, holes, pairs, givens, return_shape, if_shape};
ghost use Rattle.verse_tree.specs.Sizes.{class_fields, ref_fields, known_fields, fields_at};
ghost use Rattle.verse_tree.specs.Sizes.{tree_fields, shape_fields, trees_fields, holes_fields};
ghost use Rattle.verse_tree.specs.Sizes.{pairs_fields, givens_fields};

use crate::exprs::{
    Applied, Cases, Expr, ForParts, Form, Given, Hole, IfParts, Pair, Two, TypedValue,
};
use crate::tables::{Names, Ref};
use sqlite_items::Boxed;

/// The fields of the class with this number; none where there is no such class.
fn fields_of_class(names: &Names, class: u32) -> u64
    ensures { result ≡ class_fields (slice_get names.now.classes class) }
{
    match names.classes.get(class as usize) {
        Some(class) => class.fields.len() as u64,
        None => 0,
    }
}

fn fields_of_ref(names: &Names, what: Ref) -> u64
    ensures { result ≡ ref_fields names.now what }
{
    match what {
        Ref::Class(class) => fields_of_class(names, class),
        Ref::Local(_) => 0,
        Ref::Key(_) => 0,
        Ref::Field(_, _) => 0,
        Ref::Method(_, _) => 0,
        Ref::Fun(_) => 0,
        Ref::Enum(_) => 0,
        Ref::Builtin(_) => 0,
    }
}

fn fields_of_known(names: &Names, known: Option<Ref>) -> u64
    ensures { result ≡ known_fields names.now known }
{
    match known {
        Some(what) => fields_of_ref(names, what),
        None => 0,
    }
}

/// The fields of the class of the instance expression with this number.
fn instance_fields(names: &Names, node: u32) -> u64
    ensures { result ≡ fields_at names.now node }
{
    match names.refs.get(node as usize) {
        Some(known) => fields_of_known(names, *known),
        None => 0,
    }
}

/// The fields of all instance expressions in a tree, or the largest number.
#[cycle(fields)]
pub fn fields_in(names: &Names, expr: &Expr) -> u64
    ensures { result ≡ min (tree_fields (fields_at names.now) (tree_of expr.now))
        18446744073709551615 }
{
    fields_in_form(names, expr.node, &expr.form)
}

#[cycle(fields)]
#[tactic(auto, using(crate::proofs::Leaves::sleep_fields, crate::proofs::Leaves::event_fields))]
fn fields_in_form(names: &Names, node: u32, form: &Form) -> u64
    ensures { result ≡ min (shape_fields (fields_at names.now) node (shape_of form.now))
        18446744073709551615 }
{
    match form {
        Form::Block(parts) => fields_in_all(names, parts.as_slice()),
        Form::Tuple(parts) => fields_in_all(names, parts.as_slice()),
        Form::Array(parts) => fields_in_all(names, parts.as_slice()),
        Form::Option(parts) => fields_in_all(names, parts.as_slice()),
        Form::Logic(parts) => fields_in_all(names, parts.as_slice()),
        Form::Sync(parts) => fields_in_all(names, parts.as_slice()),
        Form::Race(parts) => fields_in_all(names, parts.as_slice()),
        Form::Rush(parts) => fields_in_all(names, parts.as_slice()),
        Form::Defer(part) => fields_in(names, part.get()),
        Form::Not(part) => fields_in(names, part.get()),
        Form::Neg(part) => fields_in(names, part.get()),
        Form::Query(part) => fields_in(names, part.get()),
        Form::Loop(part) => fields_in(names, part.get()),
        Form::BlockForm(part) => fields_in(names, part.get()),
        Form::Branch(part) => fields_in(names, part.get()),
        Form::Spawn(part) => fields_in(names, part.get()),
        Form::Let(_, part) => fields_in(names, part.get()),
        Form::Elements(_, part) => fields_in(names, part.get()),
        Form::Member(part, _) => fields_in(names, part.get()),
        Form::Entries(_, _, part) => fields_in(names, part.get()),
        Form::Set(_, parts) => fields_in_two(names, parts),
        Form::Chain(_, parts) => fields_in_two(names, parts),
        Form::Compare(_, parts) => fields_in_two(names, parts),
        Form::Range(_, parts) => fields_in_two(names, parts),
        Form::Arm(parts) => fields_in_two(names, parts),
        Form::Def(_, parts) => fields_in_typed(names, parts),
        Form::VarDef(_, parts) => fields_in_typed(names, parts),
        Form::Return(part) => fields_in_returned(names, part),
        Form::If(parts) => fields_in_if(names, parts),
        Form::Call(parts) => fields_in_applied(names, parts),
        Form::Index(parts) => fields_in_applied(names, parts),
        Form::Holes(_, parts) => fields_in_holes(names, parts.as_slice()),
        Form::Map(parts) => fields_in_pairs(names, parts.as_slice()),
        Form::Instance(_, parts) => instance_fields(names, node).saturating_add(fields_in_givens(
            names,
            parts.as_slice(),
        )),
        Form::For(parts) => fields_in_for(names, parts),
        Form::Case(parts) => fields_in_cases(names, parts),
        Form::Break => 0,
        Form::Int(_) => 0,
        Form::Char(_) => 0,
        Form::Text(_) => 0,
        Form::True => 0,
        Form::False => 0,
        Form::This => 0,
        Form::Name(_) => 0,
        Form::Event(_) => 0,
        Form::Sleep(_) => 0,
        Form::IntPattern(_) => 0,
        Form::MinusPattern(_) => 0,
        Form::CharPattern(_) => 0,
        Form::TextPattern(_) => 0,
        Form::TruePattern => 0,
        Form::FalsePattern => 0,
        Form::EnumPattern(_, _) => 0,
        Form::AnyPattern => 0,
    }
}

#[cycle(fields)]
fn fields_in_returned(names: &Names, value: &Option<Boxed<Expr>>) -> u64
    ensures { result ≡ min (shape_fields (fields_at names.now) 0
        (return_shape (option_map tree_of value.now))) 18446744073709551615 }
{
    match value {
        None => 0,
        Some(value) => fields_in(names, value.get()),
    }
}

#[cycle(fields)]
fn fields_in_two(names: &Names, two: &Two) -> u64
    ensures { result ≡ min (tree_fields (fields_at names.now) (two_of two.now).0 + tree_fields
        (fields_at names.now) (two_of two.now).1) 18446744073709551615 }
{
    fields_in(names, two.left.get()).saturating_add(fields_in(names, two.right.get()))
}

#[cycle(fields)]
fn fields_in_typed(names: &Names, typed: &TypedValue) -> u64
    ensures { result ≡ min (tree_fields (fields_at names.now) (typed_value_of typed.now).1)
        18446744073709551615 }
{
    fields_in(names, typed.value.get())
}

#[cycle(fields)]
fn fields_in_if(names: &Names, choice: &IfParts) -> u64
    ensures { result ≡ min (shape_fields (fields_at names.now) 0
        (if_shape (trees (if_of choice.now).conditions) (if_of choice.now).taken
        (if_of choice.now).otherwise)) 18446744073709551615 }
{
    let first = fields_in_all(names, choice.conditions.as_slice());
    let second = fields_in(names, choice.then.get());
    match &choice.otherwise {
        None => first.saturating_add(second),
        Some(other) => {
            let third = fields_in(names, other.get());
            first.saturating_add(second.saturating_add(third))
        }
    }
}

#[cycle(fields)]
fn fields_in_applied(names: &Names, applied: &Applied) -> u64
    ensures { result ≡ min (tree_fields (fields_at names.now) (applied_of applied.now).0 +
        trees_fields (fields_at names.now)
        (trees (applied_of applied.now).1)) 18446744073709551615 }
{
    fields_in(names, applied.callee.get()).saturating_add(fields_in_all(
        names,
        applied.args.as_slice(),
    ))
}

#[cycle(fields)]
fn fields_in_for(names: &Names, each: &ForParts) -> u64
    ensures { result ≡ min (trees_fields (fields_at names.now) (trees (for_of each.now).0) +
        tree_fields (fields_at names.now) (for_of each.now).1) 18446744073709551615 }
{
    fields_in_all(names, each.clauses.as_slice()).saturating_add(fields_in(names, each.body.get()))
}

#[cycle(fields)]
fn fields_in_cases(names: &Names, cases: &Cases) -> u64
    ensures { result ≡ min (tree_fields (fields_at names.now) (cases_of cases.now).0 + trees_fields
        (fields_at names.now) (trees (cases_of cases.now).1)) 18446744073709551615 }
{
    fields_in(names, cases.subject.get()).saturating_add(fields_in_all(
        names,
        cases.arms.as_slice(),
    ))
}

#[cycle(fields)]
fn fields_in_all(names: &Names, parts: &[Expr]) -> u64
    ensures { result ≡ min (trees_fields (fields_at names.now) (trees (map tree_of parts.now)))
        18446744073709551615 }
{
    let mut total = 0u64;
    'parts: for part in parts {
        total = total.saturating_add(fields_in(names, part));
    }
    total
}

#[cycle(fields)]
fn fields_in_holes(names: &Names, parts: &[Hole]) -> u64
    ensures { result ≡ min (holes_fields (fields_at names.now) (holes (map hole_of parts.now)))
        18446744073709551615 }
{
    let mut total = 0u64;
    'parts: for part in parts {
        total = total.saturating_add(fields_in(names, part.value.get()));
    }
    total
}

#[cycle(fields)]
fn fields_in_pairs(names: &Names, parts: &[Pair]) -> u64
    ensures { result ≡ min (pairs_fields (fields_at names.now) (pairs (map pair_of parts.now)))
        18446744073709551615 }
{
    let mut total = 0u64;
    'parts: for part in parts {
        total = total.saturating_add(fields_in(names, part.key.get()).saturating_add(fields_in(
            names,
            part.value.get(),
        )));
    }
    total
}

#[cycle(fields)]
fn fields_in_givens(names: &Names, parts: &[Given]) -> u64
    ensures { result ≡ min (givens_fields (fields_at names.now) (givens (map given_of parts.now)))
        18446744073709551615 }
{
    let mut total = 0u64;
    'parts: for part in parts {
        total = total.saturating_add(fields_in(names, part.value.get()));
    }
    total
}
