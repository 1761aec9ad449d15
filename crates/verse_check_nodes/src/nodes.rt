//! What is found at a node.

ghost use Rattle.std.specs.Prelude.{◌≡◌, IfOk};
ghost use Rattle.verse_tree.specs.View.{shape_of};
ghost use Rattle.verse_tree.specs.ItemView.{item_of, member_of, param_of};
ghost use Rattle.verse_names_tables.specs.Functions.{named_type};
ghost use Rattle.verse_rules_walk.specs.Views.{around_of};
ghost use Rattle.verse_check_typing.specs.Facts as f;
ghost use Rattle.verse_check_typing.specs.Rows as rows;
ghost use Rattle.verse_check_typing.specs.Steps as s;
ghost use Rattle.verse_check_typing.specs.Views.{facts_of, judged_of};
ghost use Rattle.verse_check_nodes.specs.Codes as c;

use crate::forms::judge_form;
use crate::kinds::{judge_type, with_type_rules};
use crate::uses::serve;
use verse_base::refusals::Memory;
use verse_check_calls::members::member_ref;
use verse_check_typing::facts::Facts;
use verse_check_typing::judged::Judged;
use verse_check_typing::spelling::{named_type, spelled};
use verse_rules_walk::arounds::Around;
use verse_tree::exprs::Form;
use verse_tree::items::{Item, Member, Param};
use verse_tree::tables::{Ref, Ty};

/// A form by itself: its type, and the least rule of types that it breaks, but for E050 where its
/// value is not what is wanted there.
#[tactic(auto, using(crate::proofs::Codes::expression_code))]
fn judge_alone(
    facts: &Facts<'_, '_>,
    around: Around<'_>,
    node: u32,
    form: &Form,
) -> Result<Judged, Memory>
    ensures { IfOk result (λ j. judged_of j ≡
        c.of_form (facts_of facts.now) (around_of around.entry) node (shape_of form.now)) }
{
    Ok(with_type_rules(judge_form(facts, around, node, form)?))
}

/// The type of an expression, and the least rule of types that it breaks.
pub fn judge_expr(
    facts: &Facts<'_, '_>,
    around: Around<'_>,
    node: u32,
    form: &Form,
) -> Result<Judged, Memory>
    ensures { IfOk result (λ j. judged_of j ≡
        c.of_expression (facts_of facts.now) (around_of around.entry) node (shape_of form.now)) }
{
    let found = judge_alone(facts, around, node, form)?;
    serve(facts, around.used, found)
}

/// The type of an item, which is that of a function's result.
pub fn judge_item(facts: &Facts<'_, '_>, item: &Item) -> Result<Judged, Memory>
    ensures { IfOk result (λ j. judged_of j ≡
        c.of_type (s.item_type (facts_of facts.now) (item_of item.now))) }
{
    match item {
        Item::Using(_) => Ok(judge_type(Ty::Void)),
        Item::Enum(_) => Ok(judge_type(Ty::Void)),
        Item::Class(_) => Ok(judge_type(Ty::Void)),
        Item::Fun(fun) => Ok(judge_type(spelled(facts, &fun.result)?)),
    }
}

/// The type of a field, or of a method's result.
pub fn judge_member(facts: &Facts<'_, '_>, member: &Member) -> Result<Judged, Memory>
    ensures { IfOk result (λ j. judged_of j ≡
        c.of_type (s.member_type (facts_of facts.now) (member_of member.now))) }
{
    match member {
        Member::Field(field) => Ok(judge_type(spelled(facts, &field.ty)?)),
        Member::Method(fun) => Ok(judge_type(spelled(facts, &fun.result)?)),
    }
}

/// The type of a parameter.
pub fn judge_param(facts: &Facts<'_, '_>, param: &Param) -> Result<Judged, Memory>
    ensures { IfOk result (λ j. judged_of j ≡
        c.of_type (rows.spelled (facts_of facts.now) (param_of param.now).written)) }
{
    Ok(judge_type(spelled(facts, &param.ty)?))
}

/// The type for which the name at this node stands.
pub fn judge_name(facts: &Facts<'_, '_>, node: u32) -> Judged
    ensures { judged_of result ≡ c.of_type (named_type (f.named_ref (facts_of facts.now) node)) }
{
    judge_type(named_type(facts.named_ref(node)))
}

/// What an expression refers to; a member is found by the type of its object.
pub fn form_ref(facts: &Facts<'_, '_>, node: u32, form: &Form) -> Result<Option<Ref>, Memory>
    ensures { IfOk result (λ r. r ≡ s.shape_ref (facts_of facts.now) node (shape_of form.now)) }
{
    match form {
        Form::Member(object, name) => {
            member_ref(facts, facts.type_of(object.get()), name.as_slice())
        }
        _ => Ok(facts.named_ref(node)),
    }
}

/// Whether an expression defines a variable.
pub fn defines_variable(form: &Form) -> bool
    ensures { result ≡ s.shape_defines (shape_of form.now) }
{
    match form {
        Form::VarDef(_, _) => true,
        _ => false,
    }
}

/// The loop that an expression leaves.
pub fn loop_left(around: Around<'_>, form: &Form) -> Option<u32>
    ensures { result ≡ s.shape_left (around_of around.entry) (shape_of form.now) }
{
    match form {
        Form::Break => around.enclosing,
        _ => None,
    }
}
