//! What undoes a change, and open marks.

use verse_cells::slots::Address;
use verse_value::values::Value;
use verse_value_writes::paths::Path;
use verse_value_writes::writes::Undo;

/// What undoes one change.
#[derive(Drop)]
pub enum Entry {
    /// The slot held this value.
    Slot(Address, Value),
    /// Something was written at this path in the slot.
    Part(Address, Path, Undo),
    /// A cell was added.
    Added,
}

/// An open mark.
#[derive(Clone, Copy, Debug, PartialEq, Eq)]
pub struct Mark {
    /// How many entries stood in the log.
    pub start: usize,
    /// What the cells weighed.
    pub weight: u64,
}
