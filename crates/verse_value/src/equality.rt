//! When two values are equal.

ghost use Rattle.std.specs.Prelude.{◌≡◌, ◌↔◌, IsTrue};
ghost use Rattle.verse_value.specs.View.{val_of, vals_of};
ghost use Rattle.verse_value.specs.Val.{vals};
ghost use Rattle.verse_value.specs.Equality.{EqualityIsTested};

use crate::keys::Key;
use crate::values::{Entries, Value};

/// What a test of two values answers is true exactly where they are equal.
pub fn equality_is_tested()
    ensures { EqualityIsTested }
{}

/// Whether two values are equal: maps where they have equal keys in the same order with equal
/// values, references where their numbers are equal.
#[cycle(equal)]
pub fn equal(a: &Value, b: &Value) -> bool
    ensures { IsTrue result ↔ (val_of a.now ≡ val_of b.now) }
{
    match (a, b) {
        (Value::Unit, Value::Unit) => true,
        (Value::False, Value::False) => true,
        (Value::True, Value::True) => true,
        (Value::Int(x), Value::Int(y)) => x == y,
        (Value::Char(x), Value::Char(y)) => x == y,
        (Value::Enum(x, i), Value::Enum(y, j)) => x == y && i == j,
        (Value::Obj(x), Value::Obj(y)) => x == y,
        (Value::Event(x), Value::Event(y)) => x == y,
        (Value::Task(x), Value::Task(y)) => x == y,
        (Value::Some(x), Value::Some(y)) => equal(x.part(), y.part()),
        (Value::Array(x), Value::Array(y)) => equal_all(x.as_slice(), y.as_slice()),
        (Value::Map(x), Value::Map(y)) => equal_maps(x, y),
        (Value::Tuple(x), Value::Tuple(y)) => equal_all(x.as_slice(), y.as_slice()),
        _ => false,
    }
}

#[cycle(equal)]
fn equal_maps(xs: &Entries, ys: &Entries) -> bool
    ensures { IsTrue result ↔ (xs.now ≡ ys.now) }
{
    if !equal_keys(xs.keys(), ys.keys()) {
        return false;
    }
    equal_all(xs.values(), ys.values())
}

#[cycle(equal)]
fn equal_all(xs: &[Value], ys: &[Value]) -> bool
    ensures { IsTrue result ↔ (vals (vals_of xs.now) ≡ vals (vals_of ys.now)) }
{
    if xs.len() != ys.len() {
        return false;
    }
    'values: for i in 0..xs.len() {
        if !equal(&xs[i], &ys[i]) {
            return false;
        }
    }
    true
}

fn equal_keys(xs: &[Key], ys: &[Key]) -> bool
    ensures { IsTrue result ↔ (xs.now ≡ ys.now) }
{
    if xs.len() != ys.len() {
        return false;
    }
    'keys: for i in 0..xs.len() {
        if !equal_key(&xs[i], &ys[i]) {
            return false;
        }
    }
    true
}

fn equal_key(a: &Key, b: &Key) -> bool
    ensures { IsTrue result ↔ (a.now ≡ b.now) }
{
    *a == *b
}
