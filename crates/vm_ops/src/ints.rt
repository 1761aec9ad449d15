//! Operations on two ints, or on one.

ghost use Rattle.std.specs.Prelude.{◌≡◌, ◌≢◌, ℤ, pos, FitsSigned};
ghost use Rattle.std.specs.Int.{w64, int_rem_euclid};
ghost use Rattle.std.specs.Option.{SomeIff};
ghost use Rattle.verse_value.specs.Val.{int};
ghost use Rattle.verse_value.specs.View.{val_of};
ghost use Rattle.verse_value.specs.Operations.{ranged, left_where, sum_of, difference_of};
ghost use Rattle.verse_value.specs.Operations.{product_of, negation_of, floor_of, ceil_of};
ghost use Rattle.verse_value.specs.Operations.{modulo_of, less_of, at_most_of, greater_of};
ghost use Rattle.verse_value.specs.Operations.{at_least_of};
ghost use Rattle.vm_ops.specs.Answers.{IsAnswer};

use crate::faults::OpFault;
use verse_base::arithmetic::{add, ceil_div, floor_div, mul, neg, sub};
use verse_base::refusals::Kind;
use verse_value::values::Value;

/// The sum of two ints. `Stuck`: one of them is no int. `Fault`: the sum leaves the range of int.
pub fn op_add(a: Value, b: Value) -> Result<Value, OpFault>
    ensures answers { IsAnswer (sum_of (val_of a) (val_of b)) result }
{
    sum(&a, &b)
}

fn sum(a: &Value, b: &Value) -> Result<Value, OpFault>
    ensures answers { IsAnswer (sum_of (val_of a.now) (val_of b.now)) result }
{
    match (a, b) {
        (Value::Int(a), Value::Int(b)) => in_range(add(*a, *b)),
        _ => Err(OpFault::Stuck),
    }
}

/// The first int less the second. `Stuck`: one of them is no int. `Fault`: the difference leaves
/// the range of int.
pub fn op_sub(a: Value, b: Value) -> Result<Value, OpFault>
    ensures answers { IsAnswer (difference_of (val_of a) (val_of b)) result }
{
    difference(&a, &b)
}

fn difference(a: &Value, b: &Value) -> Result<Value, OpFault>
    ensures answers { IsAnswer (difference_of (val_of a.now) (val_of b.now)) result }
{
    match (a, b) {
        (Value::Int(a), Value::Int(b)) => in_range(sub(*a, *b)),
        _ => Err(OpFault::Stuck),
    }
}

/// The product of two ints. `Stuck`: one of them is no int. `Fault`: the product leaves the range
/// of int.
pub fn op_mul(a: Value, b: Value) -> Result<Value, OpFault>
    ensures answers { IsAnswer (product_of (val_of a) (val_of b)) result }
{
    product(&a, &b)
}

fn product(a: &Value, b: &Value) -> Result<Value, OpFault>
    ensures answers { IsAnswer (product_of (val_of a.now) (val_of b.now)) result }
{
    match (a, b) {
        (Value::Int(a), Value::Int(b)) => in_range(mul(*a, *b)),
        _ => Err(OpFault::Stuck),
    }
}

/// An int with the other sign. `Stuck`: it is no int. `Fault`: the negation leaves the range of
/// int.
pub fn op_neg(a: Value) -> Result<Value, OpFault>
    ensures answers { IsAnswer (negation_of (val_of a)) result }
{
    negation(&a)
}

fn negation(a: &Value) -> Result<Value, OpFault>
    ensures answers { IsAnswer (negation_of (val_of a.now)) result }
{
    match a {
        Value::Int(a) => in_range(neg(*a)),
        _ => Err(OpFault::Stuck),
    }
}

/// The quotient of a dividend and a divisor, rounded down. `Stuck`: one of them is no int. `Fail`:
/// the divisor is 0. `Fault`: the quotient leaves the range of int.
pub fn op_floor(a: Value, b: Value) -> Result<Value, OpFault>
    ensures answers { IsAnswer (floor_of (val_of a) (val_of b)) result }
{
    floor(&a, &b)
}

fn floor(a: &Value, b: &Value) -> Result<Value, OpFault>
    ensures answers { IsAnswer (floor_of (val_of a.now) (val_of b.now)) result }
{
    match (a, b) {
        (Value::Int(_), Value::Int(0)) => Err(OpFault::Fail),
        (Value::Int(a), Value::Int(b)) => in_range(floor_div(*a, *b)),
        _ => Err(OpFault::Stuck),
    }
}

/// The quotient of a dividend and a divisor, rounded up. `Stuck`: one of them is no int. `Fail`:
/// the divisor is 0. `Fault`: the quotient leaves the range of int.
pub fn op_ceil(a: Value, b: Value) -> Result<Value, OpFault>
    ensures answers { IsAnswer (ceil_of (val_of a) (val_of b)) result }
{
    ceil(&a, &b)
}

fn ceil(a: &Value, b: &Value) -> Result<Value, OpFault>
    ensures answers { IsAnswer (ceil_of (val_of a.now) (val_of b.now)) result }
{
    match (a, b) {
        (Value::Int(_), Value::Int(0)) => Err(OpFault::Fail),
        (Value::Int(a), Value::Int(b)) => in_range(ceil_div(*a, *b)),
        _ => Err(OpFault::Stuck),
    }
}

/// The remainder of a dividend and a divisor: from 0 on, below the divisor's absolute value.
/// `Stuck`: one of them is no int. `Fail`: the divisor is 0.
pub fn op_mod(a: Value, b: Value) -> Result<Value, OpFault>
    ensures answers { IsAnswer (modulo_of (val_of a) (val_of b)) result }
{
    modulo(&a, &b)
}

fn modulo(a: &Value, b: &Value) -> Result<Value, OpFault>
    ensures answers { IsAnswer (modulo_of (val_of a.now) (val_of b.now)) result }
{
    match (a, b) {
        (Value::Int(_), Value::Int(0)) => Err(OpFault::Fail),
        (Value::Int(a), Value::Int(b)) => Ok(Value::Int(remainder(*a, *b))),
        _ => Err(OpFault::Stuck),
    }
}

/// The left int, where it is below the right one. `Stuck`: one of them is no int. `Fail`: it is not
/// below.
pub fn op_lt(a: Value, b: Value) -> Result<Value, OpFault>
    ensures answers { IsAnswer (less_of (val_of a) (val_of b)) result }
{
    less(&a, &b)
}

fn less(a: &Value, b: &Value) -> Result<Value, OpFault>
    ensures answers { IsAnswer (less_of (val_of a.now) (val_of b.now)) result }
{
    match (a, b) {
        (Value::Int(a), Value::Int(b)) => left_if(*a < *b, *a),
        _ => Err(OpFault::Stuck),
    }
}

/// The left int, where it is not above the right one. `Stuck`: one of them is no int. `Fail`: it is
/// above.
pub fn op_le(a: Value, b: Value) -> Result<Value, OpFault>
    ensures answers { IsAnswer (at_most_of (val_of a) (val_of b)) result }
{
    at_most(&a, &b)
}

fn at_most(a: &Value, b: &Value) -> Result<Value, OpFault>
    ensures answers { IsAnswer (at_most_of (val_of a.now) (val_of b.now)) result }
{
    match (a, b) {
        (Value::Int(a), Value::Int(b)) => left_if(*a <= *b, *a),
        _ => Err(OpFault::Stuck),
    }
}

/// The left int, where it is above the right one. `Stuck`: one of them is no int. `Fail`: it is not
/// above.
pub fn op_gt(a: Value, b: Value) -> Result<Value, OpFault>
    ensures answers { IsAnswer (greater_of (val_of a) (val_of b)) result }
{
    greater(&a, &b)
}

fn greater(a: &Value, b: &Value) -> Result<Value, OpFault>
    ensures answers { IsAnswer (greater_of (val_of a.now) (val_of b.now)) result }
{
    match (a, b) {
        (Value::Int(a), Value::Int(b)) => left_if(*a > *b, *a),
        _ => Err(OpFault::Stuck),
    }
}

/// The left int, where it is not below the right one. `Stuck`: one of them is no int. `Fail`: it is
/// below.
pub fn op_ge(a: Value, b: Value) -> Result<Value, OpFault>
    ensures answers { IsAnswer (at_least_of (val_of a) (val_of b)) result }
{
    at_least(&a, &b)
}

fn at_least(a: &Value, b: &Value) -> Result<Value, OpFault>
    ensures answers { IsAnswer (at_least_of (val_of a.now) (val_of b.now)) result }
{
    match (a, b) {
        (Value::Int(a), Value::Int(b)) => left_if(*a >= *b, *a),
        _ => Err(OpFault::Stuck),
    }
}

// An int in its range, or K1.
#[tactic(auto, using(crate::proofs::RuleSets::of_in_range))]
fn in_range(exact: Option<i64>) -> Result<Value, OpFault>
    ensures answers { (z : ℤ) → SomeIff exact (FitsSigned w64 z) z → IsAnswer (ranged z) result }
{
    match exact {
        Some(n) => Ok(Value::Int(n)),
        None => Err(OpFault::Fault(Kind::Overflow)),
    }
}

// A comparison gives its left operand or fails.
fn left_if(holds: bool, a: i64) -> Result<Value, OpFault>
    ensures answers { IsAnswer (left_where holds (int a)) result }
{
    if holds {
        Ok(Value::Int(a))
    } else {
        Err(OpFault::Fail)
    }
}

// By -1 every number is divided without a remainder, also the least int.
fn remainder(a: i64, b: i64) -> i64
    requires { b ≢ pos 0 }
    ensures { result ≡ int_rem_euclid a b }
{
    if b == -1 { 0 } else { a.rem_euclid(b) }
}
