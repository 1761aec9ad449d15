//! Rows of calls on a fiber, and what is seen of it.

ghost use Rattle.std.specs.Prelude.{◌≢◌, []};

use crate::calls::{Call, LOCALS, MOST};
use crate::driven::{begin, call_any, number, truth, value};
use fiber::fibers::Fiber;
use std::alloc::Global;
use verse_base::refusals::Memory;
use verse_value::values::Value;

/// A length, or `MOST`.
pub fn told_length(length: u64) -> i64 {
    length.min(MOST) as i64
}

/// What is seen of the frames: depth, place, two tests of all frames, three lengths, and the
/// locals.
pub fn seen(fiber: &Fiber, out: &mut Vec<i64>) -> Result<(), Memory> {
    let depth = fiber.depth();
    let tests = [truth(fiber.guarded()), truth(fiber.closing())];
    out.push(i64::from(depth))?;
    out.extend_from_slice(&tests)?;
    if depth == 0 {
        return Ok(());
    }
    seen_on_top(fiber, out)
}

fn seen_on_top(fiber: &Fiber, out: &mut Vec<i64>) -> Result<(), Memory>
    requires { fiber.now ≢ [] }
{
    let lengths = [
        told_length(fiber.defers()),
        told_length(fiber.noted()),
        told_length(fiber.kept()),
    ];
    out.push(i64::from(fiber.place()))?;
    out.extend_from_slice(&lengths)?;
    'locals: for local in 0..LOCALS {
        if let Some(value) = fiber.local(local) {
            out.push(number(value))?;
        }
    }
    Ok(())
}

/// All frames, the lowest first: the place, the locals, the operands above the innermost handler,
/// and the deferred blocks.
pub fn shown(fiber: &Fiber, out: &mut Vec<i64>) -> Result<(), Memory> {
    'frames: for i in 0..fiber.depth() {
        out.push(i64::from(fiber.frame_place(i)))?;
        shown_values(fiber.frame_locals(i), out)?;
        shown_values(fiber.frame_stack(i), out)?;
        shown_numbers(fiber.frame_defers(i), out)?;
    }
    Ok(())
}

/// How many values there are, and their numbers.
fn shown_values(values: &[Value], out: &mut Vec<i64>) -> Result<(), Memory> {
    out.push(told_length(values.len() as u64))?;
    'values: for value in values {
        out.push(number(value))?;
    }
    Ok(())
}

/// How many numbers there are, and the numbers.
pub fn shown_numbers(numbers: &[u32], out: &mut Vec<i64>) -> Result<(), Memory> {
    out.push(told_length(numbers.len() as u64))?;
    'numbers: for number in numbers {
        out.push(i64::from(*number))?;
    }
    Ok(())
}

/// Two values.
fn two_values(alloc: Global, first: u32, second: u32) -> Result<Vec<Value>, Memory> {
    let mut values = Vec::new(alloc);
    values.push(value(first))?;
    values.push(value(second))?;
    Ok(values)
}

/// Two numbers.
fn two_numbers(alloc: Global, first: u32, second: u32) -> Result<Vec<u32>, Memory> {
    let mut numbers = Vec::new(alloc);
    numbers.push(first)?;
    numbers.push(second)?;
    Ok(numbers)
}

/// A fiber of one frame, with two locals, operands and deferred blocks.
fn rebuilt(alloc: Global) -> Result<Fiber, Memory> {
    let locals = two_values(alloc, 1, 2)?;
    let stack = two_values(alloc, 3, 4)?;
    let defers = two_numbers(alloc, 5, 6)?;
    Fiber::rebuilt(alloc, 9, locals, stack, defers)
}

/// Adds another such frame.
fn add_frame(alloc: Global, fiber: &mut Fiber) -> Result<(), Memory> {
    if fiber.depth() == u32::MAX {
        return Ok(());
    }
    let locals = two_values(alloc, 11, 12)?;
    let stack = two_values(alloc, 13, 14)?;
    let defers = two_numbers(alloc, 15, 16)?;
    fiber.add_frame(19, locals, stack, defers)
}

/// Does calls while there is a frame, and tells their answers.
fn call_all(
    alloc: Global,
    fiber: &mut Fiber,
    calls: &[Call],
    told: &mut Vec<i64>,
) -> Result<(), Memory> {
    'calls: for which in calls {
        told.push(call_any(alloc, fiber, *which)?)?;
    }
    Ok(())
}

fn play_on(
    alloc: Global,
    fiber: &mut Fiber,
    calls: &[Call],
    told: &mut Vec<i64>,
    out: &mut Vec<i64>,
) -> Result<(), Memory> {
    call_all(alloc, fiber, calls, told)?;
    seen(fiber, out)
}

/// Does calls on a fiber of one frame, and tells their answers and what is then seen.
pub fn play(
    alloc: Global,
    calls: &[Call],
    told: &mut Vec<i64>,
    out: &mut Vec<i64>,
) -> Result<(), Memory> {
    let mut fiber = begin(alloc, 5)?;
    play_on(alloc, &mut fiber, calls, told, out)
}

fn see_copy(alloc: Global, fiber: &Fiber, out: &mut Vec<i64>) -> Result<(), Memory>
    requires { fiber.now ≢ [] }
{
    let copy = fiber.copy_at(alloc, 11)?;
    seen(&copy, out)
}

fn set_and_copy(alloc: Global, fiber: &mut Fiber, out: &mut Vec<i64>) -> Result<(), Memory> {
    let _ = call_any(alloc, fiber, Call::Set(1, 8))?;
    if fiber.depth() == 0 {
        return Ok(());
    }
    see_copy(alloc, fiber, out)
}

/// What is seen of a copy.
pub fn copied(alloc: Global, out: &mut Vec<i64>) -> Result<(), Memory> {
    let mut fiber = begin(alloc, 5)?;
    set_and_copy(alloc, &mut fiber, out)
}

fn play_behind_two(
    alloc: Global,
    fiber: &mut Fiber,
    calls: &[Call],
    told: &mut Vec<i64>,
    out: &mut Vec<i64>,
) -> Result<(), Memory> {
    add_frame(alloc, fiber)?;
    shown(fiber, out)?;
    call_all(alloc, fiber, calls, told)
}

/// Shows two frames that are rebuilt, and does calls on them.
pub fn play_rebuilt(
    alloc: Global,
    calls: &[Call],
    told: &mut Vec<i64>,
    out: &mut Vec<i64>,
) -> Result<(), Memory> {
    let mut fiber = rebuilt(alloc)?;
    play_behind_two(alloc, &mut fiber, calls, told, out)
}
