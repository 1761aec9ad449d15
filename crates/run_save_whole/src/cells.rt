//! What values in cells name.

ghost use Rattle.std.specs.Prelude.{◌≡◌, map};
ghost use Rattle.verse_value.specs.View.{val_of, vals_of};
ghost use Rattle.verse_value.specs.Val.{vals};
ghost use Rattle.run_save_shots.specs.View.{cell_of};
ghost use Rattle.run_save_format.specs.Whole.{names_none, name_none, pairs_name_none, broken_cell};

use verse_value::runs::CellKind;
use verse_value::values::{Entries, Value};

// Whether a value names a task that is none of so many entries.
#[cycle(names)]
fn names_none(entries: usize, value: &Value) -> bool
    ensures { result ≡ names_none entries (val_of value.now) }
{
    match value {
        Value::Task(entry) => *entry as usize >= entries,
        Value::Some(held) => names_none(entries, held.part()),
        Value::Array(parts) => name_none(entries, parts.as_slice()),
        Value::Map(pairs) => pairs_name_none(entries, pairs),
        Value::Tuple(parts) => name_none(entries, parts.as_slice()),
        _ => false,
    }
}

#[cycle(names)]
fn pairs_name_none(entries: usize, pairs: &Entries) -> bool
    ensures { result ≡ pairs_name_none entries pairs.now }
{
    name_none(entries, pairs.values())
}

#[cycle(names)]
fn name_none(entries: usize, values: &[Value]) -> bool
    ensures { result ≡ name_none entries (vals (vals_of values.now)) }
{
    'values: for i in 0..values.len() {
        if names_none(entries, &values[i]) {
            return true;
        }
    }
    false
}

/// The first cell that names a task that is none of so many entries.
pub fn broken_cell(entries: usize, cells: &[(CellKind, Vec<Value>)]) -> Option<usize>
    ensures { result ≡ broken_cell entries 0 (map cell_of cells.now) }
{
    'cells: for i in 0..cells.len() {
        if name_none(entries, &cells[i].1) {
            return Some(i);
        }
    }
    None
}
