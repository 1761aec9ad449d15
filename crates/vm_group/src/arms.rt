//! What the arms of a group gave.

ghost use Rattle.std.specs.Prelude.{◌≡◌, ◌≢◌, Some, None, IfOk, is_some, map, option_map};
ghost use Rattle.verse_value.specs.View.{val_of, vals_of};
ghost use Rattle.verse_code_machine.specs.Ends.{all_did, first_did};
ghost use Rattle.vm_tasks.specs.View.{part_of};

use std::alloc::Global;
use verse_base::refusals::Memory;
use verse_value::values::Value;
use vm_tasks::slots::Arm;

/// Whether each arm has given a value.
#[tactic(auto, using(crate::proofs::Gave::behind_some))]
pub fn all_gave(arms: &[Arm]) -> bool
    ensures { result ≡ is_some (all_did (map part_of arms.now)) }
{
    'arms: for arm in arms {
        if let Arm::Runs(_) = arm {
            return false;
        }
    }
    true
}

/// Whether an arm has given a value.
pub fn one_gave(arms: &[Arm]) -> bool
    ensures { result ≡ is_some (first_did (map part_of arms.now)) }
{
    'arms: for arm in arms {
        if let Arm::Did(_) = arm {
            return true;
        }
    }
    false
}

/// The values of all arms, which have one each.
#[tactic(auto, using(crate::proofs::RuleSets::of_values_of))]
pub fn values_of(alloc: Global, arms: Vec<Arm>) -> Result<Vec<Value>, Memory>
    requires { all_did (map part_of arms.items) ≢ None }
    ensures { IfOk result (λ vs. all_did (map part_of arms.items) ≡ Some (vals_of vs.items)) }
{
    let mut arms = arms;
    let mut values = Vec::new(alloc);
    'arms: while let Some(arm) = arms.pop() {
        if let Arm::Did(value) = arm {
            values.push(value)?;
        }
    }
    values.reverse();
    Ok(values)
}

/// The value of the first arm that has given one.
#[tactic(auto, using(crate::proofs::RuleSets::of_first_value))]
pub fn first_value(arms: Vec<Arm>) -> Option<Value>
    ensures { option_map val_of result ≡ first_did (map part_of arms.items) }
{
    let mut arms = arms;
    let mut first = None;
    'arms: while let Some(arm) = arms.pop() {
        if let Arm::Did(value) = arm {
            first = Some(value);
        }
    }
    first
}
