//! What is read of a value. Each operation has a form that lends the part and copies nothing, and
//! one that takes the value and hands the part out.

ghost use Rattle.std.specs.Prelude.{◌≡◌};
ghost use Rattle.verse_value.specs.View.{val_of};
ghost use Rattle.verse_value.specs.Answer.{stuck, given_or};
ghost use Rattle.verse_value.specs.Places.{nth};
ghost use Rattle.verse_value.specs.Operations.{query_of, item_of, at_of, length_of};
ghost use Rattle.vm_ops.specs.Answers.{IsAnswer, IsAnswerOrMemory, IsLent};

use crate::faults::OpFault;
use std::alloc::Global;
use verse_value::lookups::{Step, find};
use verse_value::values::{Parts, Value};

/// The value of an option, or `true` itself. `Stuck`: it is neither an option nor a logic. `Fail`:
/// it is `false`, which is the empty option too.
pub fn query(a: &Value) -> Result<&Value, OpFault>
    ensures answers { IsLent (query_of (val_of a.now)) result }
{
    match a {
        Value::Some(held) => Ok(held.part()),
        Value::True => Ok(a),
        Value::False => Err(OpFault::Fail),
        _ => Err(OpFault::Stuck),
    }
}

/// The same, out of the option.
pub fn op_query(a: Value) -> Result<Value, OpFault>
    ensures answers { IsAnswer (query_of (val_of a)) result }
{
    match a {
        Value::Some(held) => Ok(Box::into_inner(held).into_part()),
        Value::True => Ok(Value::True),
        Value::False => Err(OpFault::Fail),
        _ => Err(OpFault::Stuck),
    }
}

/// The element of a tuple with this number, counted from 0. `Stuck`: it is no tuple, or has no such
/// element.
pub fn item(a: &Value, n: u32) -> Result<&Value, OpFault>
    ensures answers { IsLent (item_of (val_of a.now) n) result }
{
    match a {
        Value::Tuple(parts) => part(parts, n as usize),
        _ => Err(OpFault::Stuck),
    }
}

fn part(parts: &Parts, at: usize) -> Result<&Value, OpFault>
    ensures answers { IsLent (given_or stuck (nth parts.now at)) result }
{
    match parts.part(at) {
        Some(part) => Ok(part),
        None => Err(OpFault::Stuck),
    }
}

/// The same, out of the tuple.
pub fn op_item(a: Value, n: u32) -> Result<Value, OpFault>
    ensures answers { IsAnswer (item_of (val_of a) n) result }
{
    match a {
        Value::Tuple(mut parts) => taken(&mut parts, n as usize),
        _ => Err(OpFault::Stuck),
    }
}

fn taken(parts: &mut Parts, at: usize) -> Result<Value, OpFault>
    ensures answers { IsAnswer (given_or stuck (nth parts.old at)) result }
{
    if at < parts.len() {
        Ok(parts.replace(at, Value::Unit))
    } else {
        Err(OpFault::Stuck)
    }
}

/// The element of an array at an int, or the value of a map at a key. `Stuck`: the index does not
/// go with the container. `Fail`: the index is outside the array, or the map lacks the key.
pub fn at<'a>(container: &'a Value, index: &Value) -> Result<&'a Value, OpFault>
    ensures answers { IsLent (at_of (val_of container.now) (val_of index.now)) result }
{
    match find(container, index) {
        Step::Part(part) => Ok(part),
        Step::Outside => Err(OpFault::Fail),
        Step::Absent => Err(OpFault::Fail),
        Step::Misfit => Err(OpFault::Stuck),
    }
}

/// The same, as a copy.
pub fn op_at(alloc: Global, container: Value, index: Value) -> Result<Value, OpFault>
    ensures answers { IsAnswerOrMemory (at_of (val_of container) (val_of index)) result }
{
    let copy = at(&container, &index)?.copy(alloc)?;
    Ok(copy)
}

/// How many elements an array has, or how many entries a map. `Stuck`: it is neither.
pub fn length(a: &Value) -> Result<Value, OpFault>
    ensures answers { IsAnswer (length_of (val_of a.now)) result }
{
    match a {
        Value::Array(parts) => Ok(Value::Int(parts.count())),
        Value::Map(entries) => Ok(Value::Int(entries.count())),
        _ => Err(OpFault::Stuck),
    }
}

/// The same, of a value that is let go.
pub fn op_length(a: Value) -> Result<Value, OpFault>
    ensures answers { IsAnswer (length_of (val_of a)) result }
{
    length(&a)
}
