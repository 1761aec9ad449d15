//! What `set` writes to, from one index to the next.

ghost use Rattle.std.specs.Prelude.{◌≡◌, suc, IfOk};
ghost use Rattle.verse_tree.specs.View.{tree_of, shape_of, applied_of};
ghost use Rattle.lower_calls.specs.Aims as m;

use lower_declared::numbers::further;
use verse_base::refusals::Memory;
use verse_tree::exprs::{Applied, Expr, Form};

/// What a target is.
#[derive(Clone, Copy)]
pub enum Aim<'a> {
    Name,
    /// A member of an object.
    Member(&'a Expr),
    /// What is indexed, with the arguments.
    Index(&'a Applied),
    Other,
}

#[tactic(auto, using(crate::proofs::RuleSets::of_aims))]
fn aim_in<'a>(form: &'a Form) -> Aim<'a>
    ensures { m.aim_view result ≡ m.aimed_in (shape_of form.now) }
{
    match form {
        Form::Name(_) => Aim::Name,
        Form::Member(object, _) => Aim::Member(object.get()),
        Form::Index(parts) => Aim::Index(parts),
        _ => Aim::Other,
    }
}

/// What a target is.
pub fn aim_of<'a>(target: &'a Expr) -> Aim<'a>
    ensures { m.aim_view result ≡ m.aimed (tree_of target.now) }
{
    aim_in(&target.form)
}

#[cycle(levels)]
#[tactic(auto, using(crate::proofs::RuleSets::of_levels))]
fn levels_in(form: &Form) -> Result<u32, Memory>
    ensures { IfOk result (λ n. n ≡ m.levels_in (shape_of form.now)) }
{
    match form {
        Form::Index(parts) => levels_of_index(parts),
        _ => Ok(0),
    }
}

#[cycle(levels)]
fn levels_of_index(parts: &Applied) -> Result<u32, Memory>
    ensures { IfOk result (λ n. n ≡ suc (m.levels (applied_of parts.now).0)) }
{
    further(levels(parts.callee.get())?)
}

/// How many indices stand behind one another; more than there are count as want of memory.
#[cycle(levels)]
pub fn levels(target: &Expr) -> Result<u32, Memory>
    ensures { IfOk result (λ n. n ≡ m.levels (tree_of target.now)) }
{
    levels_in(&target.form)
}

/// What the last index is of.
fn beneath<'a>(target: &'a Expr) -> &'a Expr
    ensures { tree_of result.now ≡ m.beneath (tree_of target.now) }
{
    match aim_of(target) {
        Aim::Index(parts) => parts.callee.get(),
        Aim::Name | Aim::Member(_) | Aim::Other => target,
    }
}

/// What stands before the last indices, so many.
#[tactic(auto, using(crate::proofs::Unders::under_next))]
pub fn under<'a>(target: &'a Expr, count: u32) -> &'a Expr
    ensures { tree_of result.now ≡ m.under count (tree_of target.now) }
{
    let mut at = target;
    'levels: for _level in 0..count {
        at = beneath(at);
    }
    at
}
