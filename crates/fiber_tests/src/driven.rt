//! Calls on a fiber.

ghost use Rattle.std.specs.Prelude.{◌≡◌, ◌≢◌, []};

use crate::calls::{Call, ENTRY, LOCALS, NOTHING};
use fiber::fibers::Fiber;
use std::alloc::Global;
use verse_base::refusals::Memory;
use verse_code::codes::Func;
use verse_value::values::Value;

/// The number of a value; that of the unit is `NOTHING`.
pub fn number(value: &Value) -> i64 {
    match value {
        Value::Int(number) => *number,
        _ => NOTHING,
    }
}

fn told(answer: Option<u32>) -> i64 {
    match answer {
        Some(number) => i64::from(number),
        None => NOTHING,
    }
}

/// 1 where it is so, and otherwise 0.
pub fn truth(is: bool) -> i64 {
    if is { 1 } else { 0 }
}

/// A function with one parameter.
fn func() -> Func
    ensures params { result.params ≡ 1 }
    ensures locals { result.locals ≡ 3 }
{
    Func {
        params: 1,
        locals: LOCALS,
        entry: ENTRY,
        suspends: false,
    }
}

/// The value of this number.
pub fn value(number: u32) -> Value {
    Value::Int(i64::from(number))
}

/// A fiber of one frame.
pub fn begin(alloc: Global, argument: u32) -> Result<Fiber, Memory> {
    let mut args = Vec::new(alloc);
    args.push(value(argument))?;
    Fiber::begin(alloc, &func(), args)
}

fn enter(alloc: Global, fiber: &mut Fiber, argument: u32) -> Result<(), Memory> {
    if fiber.depth() == u32::MAX {
        return Ok(());
    }
    let mut args = Vec::new(alloc);
    args.push(value(argument))?;
    fiber.enter(&func(), args)
}

fn pop(fiber: &mut Fiber) -> i64
    requires { fiber.old ≢ [] }
{
    match fiber.pop() {
        Some(value) => number(&value),
        None => NOTHING,
    }
}

fn set(fiber: &mut Fiber, local: u32, put: u32) -> i64
    requires { fiber.old ≢ [] }
{
    match fiber.set_local(local, value(put)) {
        Ok(old) => number(&old),
        Err(_) => NOTHING,
    }
}

fn leave(fiber: &mut Fiber) -> i64
    requires { fiber.old ≢ [] }
{
    match fiber.leave() {
        Some(last) => truth(last),
        None => NOTHING,
    }
}

fn take(fiber: &mut Fiber, at: u32) -> i64
    requires { fiber.old ≢ [] }
{
    if fiber.kept() < fiber.defers() {
        i64::from(fiber.take_defer(at))
    } else {
        NOTHING
    }
}

/// A call that takes memory.
fn grow(alloc: Global, fiber: &mut Fiber, call: Call) -> Result<i64, Memory>
    requires { fiber.old ≢ [] }
{
    let grown = match call {
        Call::Push(number) => fiber.push(value(number)),
        Call::Enter(argument) => enter(alloc, fiber, argument),
        Call::Guard(made, label) => fiber.guard(made, label),
        Call::Defer(index) => fiber.defer(index),
        _ => Ok(()),
    };
    grown?;
    Ok(NOTHING)
}

/// Does a call, and tells its answer. There is a frame.
fn call(alloc: Global, fiber: &mut Fiber, call: Call) -> Result<i64, Memory>
    requires { fiber.old ≢ [] }
{
    match call {
        Call::Pop => Ok(pop(fiber)),
        Call::Set(local, put) => Ok(set(fiber, local, put)),
        Call::Leave => Ok(leave(fiber)),
        Call::Go(place) => Ok(truth(fiber.go(place))),
        Call::Release => Ok(truth(fiber.release())),
        Call::Unwind => Ok(told(fiber.unwind())),
        Call::Take(at) => Ok(take(fiber, at)),
        Call::End => Ok(told(fiber.end_defer())),
        _ => grow(alloc, fiber, call),
    }
}

/// Does a call, where there is a frame, and tells its answer.
pub fn call_any(alloc: Global, fiber: &mut Fiber, which: Call) -> Result<i64, Memory> {
    if fiber.depth() == 0 {
        return Ok(NOTHING);
    }
    call(alloc, fiber, which)
}
