//! Numbers the nodes of blocks, statements and expressions: parts before the whole, and from left
//! to right.

ghost use Rattle.std.specs.Prelude.{◌≡◌, ◌≤◌, ◌+◌, map, IfOk};
ghost use Rattle.std.specs.Option.{option_map};
ghost use Rattle.verse_tree.specs.View.{tree_of, shape_of, two_of, typed_value_of, if_of};
ghost use Rattle.verse_tree.specs.View.{applied_of, for_of, cases_of, hole_of, pair_of, given_of};
ghost use Rattle.verse_tree.specs.View.{trees, holes, pairs, givens, return_shape, if_shape};
ghost use Rattle.verse_tree.specs.Numbering.{nodes, shape_nodes, trees_nodes, holes_nodes};
ghost use Rattle.verse_tree.specs.Numbering.{pairs_nodes, givens_nodes, written_nodes, numbered};
ghost use Rattle.verse_tree.specs.Numbering.{shape_numbered, trees_numbered, holes_numbered};
ghost use Rattle.verse_tree.specs.Numbering.{pairs_numbered, givens_numbered, written_numbered};
ghost use Rattle.verse_tree.specs.Tree.{tree};
ghost use Rattle.verse_tree.specs.Tree as t;
ghost use Rattle.verse_join_parts.specs.Kinds.{applied_shape, list_shape, named_shape};
ghost use Rattle.verse_join_parts.specs.Kinds.{part_shape, two_shape, typed_shape};

use sqlite_items::Boxed;
use std::alloc::Global;
use verse_base::places::Place;
use verse_base::refusals::Memory;
use verse_join_parts::copies::copied;
use verse_join_parts::kinds::{
    AppliedKind, ListKind, NamedKind, PartKind, TwoKind, TypedKind, applied_form, list_form,
    named_form, part_form, range_form, two_form, typed_form,
};
use verse_join_parts::leaves::{
    made, number_enum_pattern, number_event, number_name, number_text, number_text_pattern,
};
use verse_join_parts::type_numbering::number_type;
use verse_tree::exprs::{
    Applied, Cases, Expr, ForParts, Form, Given, Hole, IfParts, Pair, Two, TypedValue,
};
use verse_tree::names::{Name, Text};
use verse_tree_nodes::lists::{Givens, Holes, Pairs};
use verse_tree_nodes::parts::{alternative, choosing, returning, single, taking};
use verse_tree_nodes::trees::{Tree, Trees};

/// A copy of the node with its parts and itself numbered from `next` on, and the number behind it.
#[cycle(number)]
pub fn number(alloc: Global, expr: &Expr, next: u32) -> Result<(Tree, u32), Memory>
    requires fits { next + nodes (tree_of expr.now) ≤ 4294967295 }
    ensures numbered { IfOk result (λ r. tree_of r.0 ≡ numbered (tree_of expr.now) next) }
    ensures behind { IfOk result (λ r. r.1 ≡ next + nodes (tree_of expr.now)) }
{
    number_form(alloc, expr.place, &expr.form, next)
}

#[cycle(number)]
#[tactic(auto, using(crate::proofs::RuleSets::of_number_form))]
fn number_form(alloc: Global, place: Place, form: &Form, next: u32) -> Result<(Tree, u32), Memory>
    requires fits { next + (shape_nodes (shape_of form.now) + 1) ≤ 4294967295 }
    ensures numbered { IfOk result
        (λ r. tree_of r.0 ≡ tree (next + shape_nodes (shape_of form.now)) place
        (shape_numbered (shape_of form.now) next)) }
    ensures behind { IfOk result (λ r. r.1 ≡ next + (shape_nodes (shape_of form.now) + 1)) }
{
    match form {
        Form::Block(parts) => number_list(alloc, place, ListKind::Block, parts.as_slice(), next),
        Form::Tuple(parts) => number_list(alloc, place, ListKind::Tuple, parts.as_slice(), next),
        Form::Array(parts) => number_list(alloc, place, ListKind::Array, parts.as_slice(), next),
        Form::Option(parts) => number_list(alloc, place, ListKind::Option, parts.as_slice(), next),
        Form::Logic(parts) => number_list(alloc, place, ListKind::Logic, parts.as_slice(), next),
        Form::Sync(parts) => number_list(alloc, place, ListKind::Sync, parts.as_slice(), next),
        Form::Race(parts) => number_list(alloc, place, ListKind::Race, parts.as_slice(), next),
        Form::Rush(parts) => number_list(alloc, place, ListKind::Rush, parts.as_slice(), next),
        Form::Defer(part) => number_part(alloc, place, PartKind::Defer, part, next),
        Form::Not(part) => number_part(alloc, place, PartKind::Not, part, next),
        Form::Neg(part) => number_part(alloc, place, PartKind::Neg, part, next),
        Form::Query(part) => number_part(alloc, place, PartKind::Query, part, next),
        Form::Loop(part) => number_part(alloc, place, PartKind::Loop, part, next),
        Form::BlockForm(part) => number_part(alloc, place, PartKind::BlockForm, part, next),
        Form::Branch(part) => number_part(alloc, place, PartKind::Branch, part, next),
        Form::Spawn(part) => number_part(alloc, place, PartKind::Spawn, part, next),
        Form::Let(name, part) => number_named(alloc, place, NamedKind::Let, name, part, next),
        Form::Elements(name, part) => number_named(
            alloc,
            place,
            NamedKind::Elements,
            name,
            part,
            next,
        ),
        Form::Member(part, name) => number_named(alloc, place, NamedKind::Member, name, part, next),
        Form::Entries(key, value, part) => number_entries(alloc, place, key, value, part, next),
        Form::Set(how, parts) => number_two(alloc, place, TwoKind::Set(*how), parts, next),
        Form::Chain(operator, parts) => number_two(
            alloc,
            place,
            TwoKind::Chain(*operator),
            parts,
            next,
        ),
        Form::Compare(operator, parts) => number_two(
            alloc,
            place,
            TwoKind::Compare(*operator),
            parts,
            next,
        ),
        Form::Arm(parts) => number_two(alloc, place, TwoKind::Arm, parts, next),
        Form::Range(name, parts) => number_range(alloc, place, name, parts, next),
        Form::Def(name, parts) => number_typed(alloc, place, TypedKind::Def, name, parts, next),
        Form::VarDef(name, parts) => number_typed(
            alloc,
            place,
            TypedKind::VarDef,
            name,
            parts,
            next,
        ),
        Form::Return(part) => number_returned(alloc, place, part, next),
        Form::If(parts) => number_if(alloc, place, parts, next),
        Form::Call(parts) => number_applied(alloc, place, AppliedKind::Call, parts, next),
        Form::Index(parts) => number_applied(alloc, place, AppliedKind::Index, parts, next),
        Form::For(parts) => number_for(alloc, place, parts, next),
        Form::Case(parts) => number_cases(alloc, place, parts, next),
        Form::Event(ty) => number_event(alloc, place, ty, next),
        Form::Map(parts) => number_pairs(alloc, place, parts.as_slice(), next),
        Form::Holes(text, parts) => number_holes(alloc, place, text, parts.as_slice(), next),
        Form::Instance(name, parts) => number_givens(alloc, place, name, parts.as_slice(), next),
        Form::Break => made(alloc, next, place, Form::Break),
        Form::True => made(alloc, next, place, Form::True),
        Form::False => made(alloc, next, place, Form::False),
        Form::This => made(alloc, next, place, Form::This),
        Form::TruePattern => made(alloc, next, place, Form::TruePattern),
        Form::FalsePattern => made(alloc, next, place, Form::FalsePattern),
        Form::AnyPattern => made(alloc, next, place, Form::AnyPattern),
        Form::Int(value) => made(alloc, next, place, Form::Int(*value)),
        Form::Char(value) => made(alloc, next, place, Form::Char(*value)),
        Form::IntPattern(value) => made(alloc, next, place, Form::IntPattern(*value)),
        Form::MinusPattern(value) => made(alloc, next, place, Form::MinusPattern(*value)),
        Form::CharPattern(value) => made(alloc, next, place, Form::CharPattern(*value)),
        Form::Sleep(time) => made(alloc, next, place, Form::Sleep(*time)),
        Form::Text(text) => number_text(alloc, place, text, next),
        Form::TextPattern(text) => number_text_pattern(alloc, place, text, next),
        Form::Name(name) => number_name(alloc, place, name, next),
        Form::EnumPattern(name, value) => number_enum_pattern(alloc, place, name, value, next),
    }
}

#[cycle(number)]
fn number_list(
    alloc: Global,
    place: Place,
    kind: ListKind,
    parts: &[Expr],
    next: u32,
) -> Result<(Tree, u32), Memory>
    requires fits { next + (trees_nodes (trees (map tree_of parts.now)) + 1) ≤ 4294967295 }
    ensures numbered { IfOk result
        (λ r. tree_of r.0 ≡ tree (next + trees_nodes (trees (map tree_of parts.now))) place
        (list_shape kind (trees_numbered (trees (map tree_of parts.now)) next))) }
    ensures behind { IfOk result
        (λ r. r.1 ≡ next + (trees_nodes (trees (map tree_of parts.now)) + 1)) }
{
    let (parts, behind) = number_all(alloc, parts, next)?;
    made(alloc, behind, place, list_form(kind, parts))
}

#[cycle(number)]
fn number_part(
    alloc: Global,
    place: Place,
    kind: PartKind,
    part: &Boxed<Expr>,
    next: u32,
) -> Result<(Tree, u32), Memory>
    requires fits { next + (nodes (tree_of part.now) + 1) ≤ 4294967295 }
    ensures numbered { IfOk result (λ r. tree_of r.0 ≡ tree (next + nodes (tree_of part.now)) place
        (part_shape kind (numbered (tree_of part.now) next))) }
    ensures behind { IfOk result (λ r. r.1 ≡ next + (nodes (tree_of part.now) + 1)) }
{
    let (part, behind) = number(alloc, part.get(), next)?;
    made(alloc, behind, place, part_form(kind, part))
}

#[cycle(number)]
fn number_named(
    alloc: Global,
    place: Place,
    kind: NamedKind,
    name: &Name,
    part: &Boxed<Expr>,
    next: u32,
) -> Result<(Tree, u32), Memory>
    requires fits { next + (nodes (tree_of part.now) + 1) ≤ 4294967295 }
    ensures numbered { IfOk result (λ r. tree_of r.0 ≡ tree (next + nodes (tree_of part.now)) place
        (named_shape kind name.now (numbered (tree_of part.now) next))) }
    ensures behind { IfOk result (λ r. r.1 ≡ next + (nodes (tree_of part.now) + 1)) }
{
    let (part, behind) = number(alloc, part.get(), next)?;
    let name = copied(alloc, name)?;
    made(alloc, behind, place, named_form(kind, name, part))
}

#[cycle(number)]
fn number_entries(
    alloc: Global,
    place: Place,
    key: &Name,
    value: &Name,
    part: &Boxed<Expr>,
    next: u32,
) -> Result<(Tree, u32), Memory>
    requires fits { next + (nodes (tree_of part.now) + 1) ≤ 4294967295 }
    ensures numbered { IfOk result (λ r. tree_of r.0 ≡ tree (next + nodes (tree_of part.now)) place
        (t.Shape.entries key.now value.now (numbered (tree_of part.now) next))) }
    ensures behind { IfOk result (λ r. r.1 ≡ next + (nodes (tree_of part.now) + 1)) }
{
    let (part, behind) = number(alloc, part.get(), next)?;
    let key = copied(alloc, key)?;
    let value = copied(alloc, value)?;
    made(
        alloc,
        behind,
        place,
        Form::Entries(key, value, part.into_boxed()),
    )
}

#[cycle(number)]
fn number_two(
    alloc: Global,
    place: Place,
    kind: TwoKind,
    parts: &Two,
    next: u32,
) -> Result<(Tree, u32), Memory>
    requires fits { next + ((nodes (two_of parts.now).0 + nodes (two_of parts.now).1) + 1) ≤
        4294967295 }
    ensures numbered { IfOk result
        (λ r. tree_of r.0 ≡ tree (next +
        ((nodes (two_of parts.now).0 + nodes (two_of parts.now).1))) place
        (two_shape kind (numbered (two_of parts.now).0 next)
        (numbered (two_of parts.now).1 (next + nodes (two_of parts.now).0)))) }
    ensures behind { IfOk result
        (λ r. r.1 ≡ next + ((nodes (two_of parts.now).0 + nodes (two_of parts.now).1) + 1)) }
{
    let (left, middle) = number(alloc, parts.left.get(), next)?;
    let (right, behind) = number(alloc, parts.right.get(), middle)?;
    made(alloc, behind, place, two_form(kind, left, right))
}

#[cycle(number)]
fn number_range(
    alloc: Global,
    place: Place,
    name: &Name,
    parts: &Two,
    next: u32,
) -> Result<(Tree, u32), Memory>
    requires fits { next + ((nodes (two_of parts.now).0 + nodes (two_of parts.now).1) + 1) ≤
        4294967295 }
    ensures numbered { IfOk result
        (λ r. tree_of r.0 ≡ tree (next +
        ((nodes (two_of parts.now).0 + nodes (two_of parts.now).1))) place
        (t.Shape.range name.now (numbered (two_of parts.now).0 next)
        (numbered (two_of parts.now).1 (next + nodes (two_of parts.now).0)))) }
    ensures behind { IfOk result
        (λ r. r.1 ≡ next + ((nodes (two_of parts.now).0 + nodes (two_of parts.now).1) + 1)) }
{
    let (low, middle) = number(alloc, parts.left.get(), next)?;
    let (high, behind) = number(alloc, parts.right.get(), middle)?;
    let name = copied(alloc, name)?;
    made(alloc, behind, place, range_form(name, low, high))
}

#[cycle(number)]
fn number_typed(
    alloc: Global,
    place: Place,
    kind: TypedKind,
    name: &Name,
    parts: &TypedValue,
    next: u32,
) -> Result<(Tree, u32), Memory>
    requires fits { next + ((written_nodes (typed_value_of parts.now).0 + nodes
        (typed_value_of parts.now).1) + 1) ≤ 4294967295 }
    ensures numbered { IfOk result
        (λ r. tree_of r.0 ≡ tree (next +
        ((written_nodes (typed_value_of parts.now).0 + nodes (typed_value_of parts.now).1))) place
        (typed_shape kind name.now (written_numbered (typed_value_of parts.now).0 next)
        (numbered (typed_value_of parts.now).1
        (next + written_nodes (typed_value_of parts.now).0)))) }
    ensures behind { IfOk result
        (λ r. r.1 ≡ next + ((written_nodes (typed_value_of parts.now).0 + nodes
        (typed_value_of parts.now).1) + 1)) }
{
    let (ty, middle) = number_type(alloc, &parts.ty, next)?;
    let (value, behind) = number(alloc, parts.value.get(), middle)?;
    let name = copied(alloc, name)?;
    made(alloc, behind, place, typed_form(kind, name, ty, value))
}

#[cycle(number)]
fn number_returned(
    alloc: Global,
    place: Place,
    part: &Option<Boxed<Expr>>,
    next: u32,
) -> Result<(Tree, u32), Memory>
    requires fits { next + (shape_nodes (return_shape (option_map tree_of part.now)) + 1) ≤
        4294967295 }
    ensures numbered { IfOk result
        (λ r. tree_of r.0 ≡ tree (next + shape_nodes (return_shape (option_map tree_of part.now)))
        place (shape_numbered (return_shape (option_map tree_of part.now)) next)) }
    ensures behind { IfOk result
        (λ r. r.1 ≡ next + (shape_nodes (return_shape (option_map tree_of part.now)) + 1)) }
{
    match part {
        None => made(alloc, next, place, Form::Return(None)),
        Some(part) => {
            let (part, behind) = number(alloc, part.get(), next)?;
            made(alloc, behind, place, returning(Some(part.into_boxed())))
        }
    }
}

#[cycle(number)]
fn number_if(alloc: Global, place: Place, parts: &IfParts, next: u32) -> Result<(Tree, u32), Memory>
    requires fits { next + (shape_nodes
        (if_shape (trees (if_of parts.now).conditions) (if_of parts.now).taken
        (if_of parts.now).otherwise) + 1) ≤ 4294967295 }
    ensures numbered { IfOk result
        (λ r. tree_of r.0 ≡ tree (next + shape_nodes
        (if_shape (trees (if_of parts.now).conditions) (if_of parts.now).taken
        (if_of parts.now).otherwise)) place
        (shape_numbered (if_shape (trees (if_of parts.now).conditions) (if_of parts.now).taken
        (if_of parts.now).otherwise) next)) }
    ensures behind { IfOk result
        (λ r. r.1 ≡ next + (shape_nodes
        (if_shape (trees (if_of parts.now).conditions) (if_of parts.now).taken
        (if_of parts.now).otherwise) + 1)) }
{
    let (conditions, first) = number_all(alloc, parts.conditions.as_slice(), next)?;
    let (then, second) = number(alloc, parts.then.get(), first)?;
    match &parts.otherwise {
        None => made(alloc, second, place, Form::If(single(conditions, then))),
        Some(other) => {
            let (other, behind) = number(alloc, other.get(), second)?;
            made(
                alloc,
                behind,
                place,
                Form::If(alternative(conditions, then, other)),
            )
        }
    }
}

#[cycle(number)]
fn number_applied(
    alloc: Global,
    place: Place,
    kind: AppliedKind,
    parts: &Applied,
    next: u32,
) -> Result<(Tree, u32), Memory>
    requires fits { next + ((nodes (applied_of parts.now).0 + trees_nodes
        (trees (applied_of parts.now).1)) + 1) ≤ 4294967295 }
    ensures numbered { IfOk result
        (λ r. tree_of r.0 ≡ tree (next +
        ((nodes (applied_of parts.now).0 + trees_nodes (trees (applied_of parts.now).1)))) place
        (applied_shape kind (numbered (applied_of parts.now).0 next)
        (trees_numbered (trees (applied_of parts.now).1)
        (next + nodes (applied_of parts.now).0)))) }
    ensures behind { IfOk result
        (λ r. r.1 ≡ next + ((nodes (applied_of parts.now).0 + trees_nodes
        (trees (applied_of parts.now).1)) + 1)) }
{
    let (callee, middle) = number(alloc, parts.callee.get(), next)?;
    let (args, behind) = number_all(alloc, parts.args.as_slice(), middle)?;
    made(alloc, behind, place, applied_form(kind, callee, args))
}

#[cycle(number)]
fn number_for(
    alloc: Global,
    place: Place,
    parts: &ForParts,
    next: u32,
) -> Result<(Tree, u32), Memory>
    requires fits { next + ((trees_nodes (trees (for_of parts.now).0) + nodes
        (for_of parts.now).1) + 1) ≤ 4294967295 }
    ensures numbered { IfOk result
        (λ r. tree_of r.0 ≡ tree (next +
        ((trees_nodes (trees (for_of parts.now).0) + nodes (for_of parts.now).1))) place
        (t.Shape.for_form (trees_numbered (trees (for_of parts.now).0) next)
        (numbered (for_of parts.now).1 (next + trees_nodes (trees (for_of parts.now).0))))) }
    ensures behind { IfOk result
        (λ r. r.1 ≡ next + ((trees_nodes (trees (for_of parts.now).0) + nodes
        (for_of parts.now).1) + 1)) }
{
    let (clauses, middle) = number_all(alloc, parts.clauses.as_slice(), next)?;
    let (body, behind) = number(alloc, parts.body.get(), middle)?;
    made(alloc, behind, place, Form::For(taking(clauses, body)))
}

#[cycle(number)]
fn number_cases(
    alloc: Global,
    place: Place,
    parts: &Cases,
    next: u32,
) -> Result<(Tree, u32), Memory>
    requires fits { next + ((nodes (cases_of parts.now).0 + trees_nodes
        (trees (cases_of parts.now).1)) + 1) ≤ 4294967295 }
    ensures numbered { IfOk result
        (λ r. tree_of r.0 ≡ tree (next +
        ((nodes (cases_of parts.now).0 + trees_nodes (trees (cases_of parts.now).1)))) place
        (t.Shape.cases (numbered (cases_of parts.now).0 next)
        (trees_numbered (trees (cases_of parts.now).1) (next + nodes (cases_of parts.now).0)))) }
    ensures behind { IfOk result
        (λ r. r.1 ≡ next + ((nodes (cases_of parts.now).0 + trees_nodes
        (trees (cases_of parts.now).1)) + 1)) }
{
    let (subject, middle) = number(alloc, parts.subject.get(), next)?;
    let (arms, behind) = number_all(alloc, parts.arms.as_slice(), middle)?;
    made(alloc, behind, place, Form::Case(choosing(subject, arms)))
}

#[cycle(number)]
#[tactic(auto, using(verse_tree::proofs::Lists::trees_listed))]
fn number_all(alloc: Global, parts: &[Expr], next: u32) -> Result<(Trees, u32), Memory>
    requires fits { next + trees_nodes (trees (map tree_of parts.now)) ≤ 4294967295 }
    ensures numbered { IfOk result (λ r. trees (map tree_of r.0) ≡
        trees_numbered (trees (map tree_of parts.now)) next) }
    ensures behind { IfOk result (λ r. r.1 ≡ next + trees_nodes (trees (map tree_of parts.now))) }
{
    let mut done = Trees::new(alloc);
    let mut at = next;
    'parts: for part in parts {
        let (part, behind) = number(alloc, part, at)?;
        done.push(part)?;
        at = behind;
    }
    Ok((done, at))
}

#[cycle(number)]
#[tactic(auto, using(verse_tree::proofs::Lists::holes_listed))]
fn number_holes(
    alloc: Global,
    place: Place,
    text: &Text,
    parts: &[Hole],
    next: u32,
) -> Result<(Tree, u32), Memory>
    requires fits { next + (holes_nodes (holes (map hole_of parts.now)) + 1) ≤ 4294967295 }
    ensures numbered { IfOk result
        (λ r. tree_of r.0 ≡ tree (next + holes_nodes (holes (map hole_of parts.now))) place
        (t.Shape.holes text.now (holes_numbered (holes (map hole_of parts.now)) next))) }
    ensures behind { IfOk result
        (λ r. r.1 ≡ next + (holes_nodes (holes (map hole_of parts.now)) + 1)) }
{
    let mut done = Holes::new(alloc);
    let mut at = next;
    'parts: for part in parts {
        let behind = copied(alloc, &part.behind)?;
        let (value, after) = number(alloc, part.value.get(), at)?;
        done.push(value, behind)?;
        at = after;
    }
    let text = copied(alloc, text)?;
    made(alloc, at, place, Form::Holes(text, done.into_items()))
}

#[cycle(number)]
#[tactic(auto, using(verse_tree::proofs::Lists::pairs_listed))]
fn number_pairs(
    alloc: Global,
    place: Place,
    parts: &[Pair],
    next: u32,
) -> Result<(Tree, u32), Memory>
    requires fits { next + (pairs_nodes (pairs (map pair_of parts.now)) + 1) ≤ 4294967295 }
    ensures numbered { IfOk result
        (λ r. tree_of r.0 ≡ tree (next + pairs_nodes (pairs (map pair_of parts.now))) place
        (t.Shape.mapping (pairs_numbered (pairs (map pair_of parts.now)) next))) }
    ensures behind { IfOk result
        (λ r. r.1 ≡ next + (pairs_nodes (pairs (map pair_of parts.now)) + 1)) }
{
    let mut done = Pairs::new(alloc);
    let mut at = next;
    'parts: for part in parts {
        let (key, middle) = number(alloc, part.key.get(), at)?;
        let (value, behind) = number(alloc, part.value.get(), middle)?;
        done.push(key, value)?;
        at = behind;
    }
    made(alloc, at, place, Form::Map(done.into_items()))
}

#[cycle(number)]
#[tactic(auto, using(verse_tree::proofs::Lists::givens_listed))]
fn number_givens(
    alloc: Global,
    place: Place,
    name: &Name,
    parts: &[Given],
    next: u32,
) -> Result<(Tree, u32), Memory>
    requires fits { next + (givens_nodes (givens (map given_of parts.now)) + 1) ≤ 4294967295 }
    ensures numbered { IfOk result
        (λ r. tree_of r.0 ≡ tree (next + givens_nodes (givens (map given_of parts.now))) place
        (t.Shape.instance name.now (givens_numbered (givens (map given_of parts.now)) next))) }
    ensures behind { IfOk result
        (λ r. r.1 ≡ next + (givens_nodes (givens (map given_of parts.now)) + 1)) }
{
    let mut done = Givens::new(alloc);
    let mut at = next;
    'parts: for part in parts {
        let field = copied(alloc, &part.name)?;
        let (value, behind) = number(alloc, part.value.get(), at)?;
        done.push(field, value)?;
        at = behind;
    }
    let name = copied(alloc, name)?;
    made(alloc, at, place, Form::Instance(name, done.into_items()))
}
