//! Values for the tests.

ghost use Rattle.std.specs.Prelude.{◌≡◌, [], ◌∷◌, ◌+◌, IfOk};
ghost use Rattle.verse_value.specs.View.{val_of, vals_of};
ghost use Rattle.verse_value.specs.Val.{array, mapping, no_vals, more_vals, no_pairs, more_pairs};
ghost use Rattle.verse_value.specs.Sizes.{levels_of};
ghost use Rattle.verse_value_tests.specs.Nested.{in_options};

use std::alloc::Global;
use verse_base::refusals::Memory;
use verse_value::keys::Key;
use verse_value::values::{Entries, Parts, Value};
use verse_value_writes::paths::Path;

/// An array of two values.
pub fn pair(alloc: Global, first: Value, second: Value) -> Result<Value, Memory>
    ensures { IfOk result (λ v. val_of v ≡
        array (more_vals (val_of first) (more_vals (val_of second) no_vals))) }
{
    let mut parts = Parts::new(alloc);
    parts.push(first)?;
    parts.push(second)?;
    Ok(Value::Array(Box::new(alloc, parts)?))
}

/// A map with one entry.
pub fn one_entry(alloc: Global, key: Key, value: Value) -> Result<Value, Memory>
    ensures { IfOk result (λ v. val_of v ≡ mapping (more_pairs key (val_of value) no_pairs)) }
{
    let mut entries = Entries::new(alloc);
    entries.push(key, value)?;
    Value::map(alloc, entries)
}

/// The path of one index.
pub fn path_to(alloc: Global, index: Value) -> Result<Path, Memory>
    ensures { IfOk result (λ p. vals_of p ≡ val_of index ∷ []) }
{
    let mut path = Path::new(alloc);
    path.push(index)?;
    Ok(path)
}

/// A value in so many options.
pub fn nested(alloc: Global, value: Value, count: u32) -> Result<Value, Memory>
    ensures nested { IfOk result (λ v. val_of v ≡ in_options count (val_of value)) }
    ensures levels { IfOk result (λ v. levels_of (val_of v) ≡ count + levels_of (val_of value)) }
{
    let mut nested = value;
    'options: for _ in 0..count {
        nested = Value::option(alloc, nested)?;
    }
    Ok(nested)
}
