//! What makes an array, a tuple, an option or a map. Each value made is no heavier and no deeper
//! than a value of a run may be. An array keeps its allocator and grows with it.

ghost use Rattle.std.specs.Prelude.{◌≡◌, Some, option_map, OnOk, IfOk, IfErr};
ghost use Rattle.verse_value.specs.Val.{mapping};
ghost use Rattle.verse_value.specs.View.{val_of, vals_of};
ghost use Rattle.verse_value.specs.Operations.{sized, concat_of, append_of, array_of, tuple_of};
ghost use Rattle.verse_value.specs.Operations.{option_of, map_of, with_entry};
ghost use Rattle.verse_value.specs.Keys.{key_of};
ghost use Rattle.vm_ops.specs.Answers.{IsAnswerOrMemory, IsFaultOrMemory, IsMisfit};
ghost use Rattle.vm_ops.specs.Lists.{pairs_of};

use crate::faults::OpFault;
use std::alloc::Global;
use verse_base::refusals::Kind;
use verse_value::lookups::key_from;
use verse_value::sizes::is_fit;
use verse_value::values::{Entries, Value};

/// Two arrays joined: the left one grows in place. `Stuck`: one of them is no array. `Fault`: they
/// would weigh more than 4000000 or have more than 200 levels.
pub fn op_concat(_alloc: Global, a: Value, b: Value) -> Result<Value, OpFault>
    ensures answers { IsAnswerOrMemory (concat_of (val_of a) (val_of b)) result }
{
    match (a, b) {
        (Value::Array(mut parts), Value::Array(more)) => {
            parts.append(Box::into_inner(more))?;
            fitting(Value::Array(parts))
        }
        _ => Err(OpFault::Stuck),
    }
}

/// An array with a value behind its last: it grows in place. `Stuck`: it is no array. `Fault`: it
/// would weigh more than 4000000 or have more than 200 levels.
pub fn op_append(_alloc: Global, array: Value, value: Value) -> Result<Value, OpFault>
    ensures answers { IsAnswerOrMemory (append_of (val_of array) (val_of value)) result }
{
    match array {
        Value::Array(mut parts) => {
            parts.push(value)?;
            fitting(Value::Array(parts))
        }
        _ => Err(OpFault::Stuck),
    }
}

/// An array of these values. `Fault`: it would weigh more than 4000000 or have more than 200
/// levels.
pub fn op_array(parts: Vec<Value>) -> Result<Value, OpFault>
    ensures answers { IsAnswerOrMemory (array_of (vals_of parts.items)) result }
{
    let alloc = *parts.allocator();
    fitting(Value::array(alloc, parts)?)
}

/// A tuple of these values. `Fault`: it would weigh more than 4000000 or have more than 200 levels.
pub fn op_tuple(parts: Vec<Value>) -> Result<Value, OpFault>
    ensures answers { IsAnswerOrMemory (tuple_of (vals_of parts.items)) result }
{
    let alloc = *parts.allocator();
    fitting(Value::tuple(alloc, parts)?)
}

/// An option with a value. `Fault`: it would weigh more than 4000000 or have more than 200 levels.
pub fn op_some(alloc: Global, a: Value) -> Result<Value, OpFault>
    ensures answers { IsAnswerOrMemory (option_of (val_of a)) result }
{
    fitting(Value::option(alloc, a)?)
}

/// A map from keys with their values, in order: a key that comes again keeps its place and takes
/// the later value. `Stuck`: a value in a key's place is no key. `Fault`: the map would weigh more
/// than 4000000 or have more than 200 levels.
pub fn op_map(alloc: Global, pairs: Vec<(Value, Value)>) -> Result<Value, OpFault>
    ensures answers { IsAnswerOrMemory (map_of (pairs_of pairs.items)) result }
{
    let entries = entries_of(alloc, pairs)?;
    fitting(Value::map(alloc, entries)?)
}

fn entries_of(alloc: Global, pairs: Vec<(Value, Value)>) -> Result<Entries, OpFault>
    ensures made { IfOk result (λ entries. map_of (pairs_of pairs.items) ≡
        sized (mapping entries)) }
    ensures fault { IfErr result (IsFaultOrMemory (map_of (pairs_of pairs.items))) }
{
    let mut entries = Entries::new(alloc);
    'pairs: for pair in pairs {
        insert(alloc, &mut entries, pair)?;
    }
    Ok(entries)
}

fn insert(alloc: Global, entries: &mut Entries, pair: (Value, Value)) -> Result<(), OpFault>
    ensures ok { OnOk result (option_map (λ key. with_entry entries.old key (val_of pair.1))
        (key_of (val_of pair.0)) ≡ Some entries.new) }
    ensures fault { IfErr result (IsMisfit (key_of (val_of pair.0))) }
{
    let (key, value) = pair;
    match key_from(alloc, &key)? {
        Some(key) => Ok(entries.insert(key, value)?),
        None => Err(OpFault::Stuck),
    }
}

// A value that is light and flat enough, or K2.
fn fitting(value: Value) -> Result<Value, OpFault>
    ensures answers { IsAnswerOrMemory (sized (val_of value)) result }
{
    if is_fit(&value) {
        Ok(value)
    } else {
        Err(OpFault::Fault(Kind::Size))
    }
}
