//! What the target of `set` leads to.

ghost use Rattle.std.specs.Prelude.{◌≡◌, ◌+◌, IfOk};
ghost use Rattle.verse_tree.specs.View.{tree_of, shape_of, trees, applied_of};
ghost use Rattle.lower_code.specs.Lowering as l;
ghost use Rattle.lower_lookup.specs.Targets.{kind_of, kind_of_shape};

use crate::statements::how_many;
use verse_base::refusals::Memory;
use verse_tree::exprs::{Applied, Expr, Form};

/// What the indices of a target lead from.
#[derive(Clone, Copy, Debug, PartialEq, Eq)]
pub enum Target {
    Name,
    Member,
    Other,
}

fn sum_of(count: usize, beneath: u32) -> Result<u32, Memory>
    ensures { IfOk result (λ n. n ≡ count + beneath) }
{
    let Ok(number) = u32::try_from(count) else {
        return Err(Memory);
    };
    match number.checked_add(beneath) {
        Some(sum) => Ok(sum),
        None => Err(Memory),
    }
}

#[cycle(operands)]
#[tactic(auto, using(crate::proofs::RuleSets::of_operands))]
fn operands_of_form(form: &Form) -> Result<u32, Memory>
    ensures { IfOk result (λ n. n ≡ l.target_operands_shape (shape_of form.now)) }
{
    match form {
        Form::Index(parts) => operands_of_index(parts),
        _ => Ok(0),
    }
}

#[cycle(operands)]
fn operands_of_index(parts: &Applied) -> Result<u32, Memory>
    ensures { IfOk result (λ n. n ≡ l.how_many (trees (applied_of parts.now).1) +
        l.target_operands (applied_of parts.now).0) }
{
    let beneath = target_operands(parts.callee.get())?;
    sum_of(how_many(parts.args.as_slice()), beneath)
}

/// How many indices lead to what `set` writes; more than there are count as want of memory.
#[cycle(operands)]
pub fn target_operands(target: &Expr) -> Result<u32, Memory>
    ensures { IfOk result (λ n. n ≡ l.target_operands (tree_of target.now)) }
{
    operands_of_form(&target.form)
}

#[cycle(target)]
#[tactic(auto, using(crate::proofs::RuleSets::of_targets))]
fn target_of_form(form: &Form) -> Target
    ensures { result ≡ kind_of_shape (shape_of form.now) }
{
    match form {
        Form::Name(_) => Target::Name,
        Form::Member(_, _) => Target::Member,
        Form::Index(parts) => target_of_index(parts),
        _ => Target::Other,
    }
}

#[cycle(target)]
fn target_of_index(parts: &Applied) -> Target
    ensures { result ≡ kind_of (applied_of parts.now).0 }
{
    target_of(parts.callee.get())
}

/// What the indices of a target lead from.
#[cycle(target)]
pub fn target_of(target: &Expr) -> Target
    ensures { result ≡ kind_of (tree_of target.now) }
{
    target_of_form(&target.form)
}
