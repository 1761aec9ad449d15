//! Texts, keys, joined arrays and elements as values.

ghost use Rattle.std.specs.Prelude.{◌≡◌, IfOk, IfErr};
ghost use Rattle.verse_value.specs.View.{val_of, vals_of};
ghost use Rattle.verse_value.specs.Keys.{key_val};
ghost use Rattle.verse_value.specs.Answer.{gives};
ghost use Rattle.verse_value.specs.Operations.{text_val, concat_of, at_of};
ghost use Rattle.verse_value_writes.specs.Writes.{Explains, result_of};

use std::alloc::Global;
use verse_base::refusals::{Kind, Memory};
use verse_value::keys::Key;
use verse_value::lookups::{Step, find};
use verse_value::sizes::is_fit;
use verse_value::values::Value;
use verse_value_writes::writes::WriteFault;

/// The value of a text: the array of its chars.
#[tactic(auto, using(crate::proofs::Chars::chars_are))]
pub fn text_value(alloc: Global, bytes: &[u8]) -> Result<Value, Memory>
    ensures { IfOk result (λ v. val_of v ≡ text_val bytes.now) }
{
    let mut items = Vec::with_capacity(alloc, bytes.len())?;
    'bytes: for byte in bytes {
        items.push(Value::Char(*byte))?;
    }
    Value::array(alloc, items)
}

/// The value that a key is.
pub fn key_value(alloc: Global, key: &Key) -> Result<Value, Memory>
    ensures { IfOk result (λ v. val_of v ≡ key_val key.now) }
{
    match key {
        Key::Int(n) => Ok(Value::Int(*n)),
        Key::Logic(true) => Ok(Value::True),
        Key::Logic(false) => Ok(Value::False),
        Key::Char(c) => Ok(Value::Char(*c)),
        Key::Enum(of, at) => Ok(Value::Enum(*of, *at)),
        Key::Text(bytes) => text_value(alloc, bytes.as_slice()),
    }
}

/// Two arrays joined: the left one grows in place. `Stuck`: one of them is no array. `Fault`: they
/// would weigh more than 4000000 or have more than 200 levels.
pub fn join(left: Value, right: Value) -> Result<Value, WriteFault>
    ensures ok { IfOk result (λ v. concat_of (val_of left) (val_of right) ≡ gives (val_of v)) }
    ensures fault { IfErr result (Explains (result_of (concat_of (val_of left) (val_of right)))) }
{
    match (left, right) {
        (Value::Array(mut parts), Value::Array(more)) => {
            parts.append(Box::into_inner(more))?;
            let whole = Value::Array(parts);
            if is_fit(&whole) {
                return Ok(whole);
            }
            Err(WriteFault::Fault(Kind::Size))
        }
        _ => Err(WriteFault::Stuck),
    }
}

/// A copy of the element of an array, or of the value at a key. `Fail`: the index is outside the
/// array, or the map lacks the key. `Stuck`: the index doesn't go with the value.
pub fn element(alloc: Global, v: &Value, index: &Value) -> Result<Value, WriteFault>
    ensures ok { IfOk result (λ part. at_of (val_of v.now) (val_of index.now) ≡
        gives (val_of part)) }
    ensures fault { IfErr result (Explains (result_of (at_of (val_of v.now) (val_of index.now)))) }
{
    match find(v, index) {
        Step::Part(part) => {
            let copy = part.copy(alloc)?;
            Ok(copy)
        }
        Step::Outside => Err(WriteFault::Fail),
        Step::Absent => Err(WriteFault::Fail),
        Step::Misfit => Err(WriteFault::Stuck),
    }
}
