//! The row of each form.

ghost use Rattle.std.specs.Prelude.{◌≡◌, IfOk};
ghost use Rattle.verse_tree.specs.View.{shape_of};
ghost use Rattle.verse_rules_walk.specs.Views.{around_of};
ghost use Rattle.verse_check_typing.specs.Steps.{formed};
ghost use Rattle.verse_check_typing.specs.Views.{facts_of, judged_of};

use crate::plain::{char, int, logic, never, nil, void};
use crate::shared::{
    arm, array, bare_event, content, event, if_form, last_type, made, mapping, negative, option,
    repeated, same_type, text, this, tuple, typed, value_pattern,
};
use verse_base::refusals::Memory;
use verse_check_calls::calls::{call, index, spawn};
use verse_check_calls::members::member_form;
use verse_check_calls::names::name;
use verse_check_control::cases::case_form;
use verse_check_control::loops::for_form;
use verse_check_control::returns::{returned, returned_unit};
use verse_check_control::tasks::{race, sync};
use verse_check_typing::facts::Facts;
use verse_check_typing::judged::Judged;
use verse_check_values::lists::text_with_holes;
use verse_check_values::operators::{chain, comparison};
use verse_check_values::options::query;
use verse_check_values::places::assignment;
use verse_rules_walk::arounds::Around;
use verse_tree::exprs::Form;

/// The type of a form, and the least code of the rules of forms that it breaks.
pub fn judge_form(
    facts: &Facts<'_, '_>,
    around: Around<'_>,
    node: u32,
    form: &Form,
) -> Result<Judged, Memory>
    ensures { IfOk result (λ j. judged_of j ≡
        formed (facts_of facts.now) (around_of around.entry) node (shape_of form.now)) }
{
    match form {
        Form::Block(parts) => last_type(facts, parts.as_slice()),
        Form::Defer(_) => void(),
        Form::Let(_, part) => same_type(facts, part.get()),
        Form::Def(_, parts) => typed(facts, parts),
        Form::VarDef(_, parts) => typed(facts, parts),
        Form::Set(assign, parts) => assignment(facts, *assign, parts),
        Form::Return(None) => returned_unit(facts, around),
        Form::Return(Some(part)) => returned(facts, around, part.get()),
        Form::Break => never(),
        Form::If(parts) => if_form(facts, around, node, parts),
        Form::Chain(operator, parts) => chain(facts, around.used, *operator, parts),
        Form::Compare(operator, parts) => comparison(facts, *operator, parts),
        Form::Not(_) => void(),
        Form::Neg(part) => negative(facts, part.get()),
        Form::Call(parts) => call(facts, parts),
        Form::Index(parts) => index(facts, parts),
        Form::Member(object, member) => {
            member_form(facts, around.used, object.get(), member.as_slice())
        }
        Form::Query(part) => query(facts, part.get()),
        Form::Int(_) => int(),
        Form::Char(_) => char(),
        Form::Text(_) => text(facts.world.alloc),
        Form::Holes(_, parts) => text_with_holes(facts, parts.as_slice()),
        Form::True => logic(),
        Form::False => nil(),
        Form::This => this(facts, node),
        Form::Name(_) => name(facts, around.used, node),
        Form::Tuple(parts) => tuple(facts, parts.as_slice()),
        Form::Array(parts) => array(facts, parts.as_slice()),
        Form::Map(parts) => mapping(facts, parts.as_slice()),
        Form::Option(parts) => option(facts, parts.as_slice()),
        Form::Logic(_) => logic(),
        Form::Instance(_, parts) => made(facts, node, parts),
        Form::Event(None) => bare_event(facts.world.alloc),
        Form::Event(Some(ty)) => event(facts, ty),
        Form::For(parts) => for_form(facts, parts),
        Form::Loop(_) => repeated(facts, node),
        Form::BlockForm(part) => same_type(facts, part.get()),
        Form::Branch(_) => void(),
        Form::Sync(parts) => sync(facts, parts.as_slice()),
        Form::Race(parts) => race(facts, parts.as_slice()),
        Form::Rush(parts) => race(facts, parts.as_slice()),
        Form::Case(parts) => case_form(facts, parts),
        Form::Spawn(part) => spawn(facts, part.get()),
        Form::Sleep(None) => void(),
        Form::Sleep(Some(_)) => void(),
        Form::Elements(_, domain) => content(facts, domain.get()),
        Form::Entries(_, _, domain) => content(facts, domain.get()),
        Form::Range(_, _) => int(),
        Form::Arm(parts) => arm(facts, parts),
        Form::IntPattern(_) => int(),
        Form::MinusPattern(_) => int(),
        Form::CharPattern(_) => char(),
        Form::TextPattern(_) => text(facts.world.alloc),
        Form::TruePattern => logic(),
        Form::FalsePattern => nil(),
        Form::EnumPattern(_, value) => value_pattern(facts, node, value.as_slice()),
        Form::AnyPattern => never(),
    }
}
