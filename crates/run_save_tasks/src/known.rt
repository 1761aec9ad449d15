//! What tasks are read against.

use run_save_format::weights::Numbers;
use verse_code::codes::Code;
use verse_value::runs::CellKind;
use verse_value::values::Value;

/// What was read before the tasks.
#[derive(Clone, Copy)]
pub struct Known<'a> {
    pub code: &'a Code,
    pub numbers: Numbers,
    pub cells: &'a [(CellKind, Vec<Value>)],
    pub spawned: &'a [Option<(Value, u64)>],
}
