//! Whether two values are equal.

ghost use Rattle.verse_value.specs.View.{val_of};
ghost use Rattle.verse_value.specs.Operations.{equal_of, unequal_of};
ghost use Rattle.vm_ops.specs.Answers.{IsAnswer};

use crate::faults::OpFault;
use verse_value::equality::equal;
use verse_value::values::Value;

/// The left value, where it equals the right one. `Fail`: it does not. Values of two kinds are
/// unequal. No more parts are looked at than the smaller value has.
#[tactic(auto, using(crate::proofs::Equal::equal_gives, crate::proofs::Equal::equal_fails))]
pub fn op_eq(a: Value, b: Value) -> Result<Value, OpFault>
    ensures answers { IsAnswer (equal_of (val_of a) (val_of b)) result }
{
    if equal(&a, &b) {
        Ok(a)
    } else {
        Err(OpFault::Fail)
    }
}

/// The left value, where it does not equal the right one. `Fail`: it does.
#[tactic(auto, using(crate::proofs::Equal::unequal_gives, crate::proofs::Equal::unequal_fails))]
pub fn op_ne(a: Value, b: Value) -> Result<Value, OpFault>
    ensures answers { IsAnswer (unequal_of (val_of a) (val_of b)) result }
{
    if !equal(&a, &b) {
        Ok(a)
    } else {
        Err(OpFault::Fail)
    }
}
