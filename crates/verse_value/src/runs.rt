//! What a cell of the store is, and how a run ends.

use verse_base::places::Place;
use verse_base::refusals::Kind;

/// What a cell of the store is.
#[derive(Clone, Copy, Debug, PartialEq, Eq)]
pub enum CellKind {
    /// A variable, with one slot.
    Var,
    /// An event, with no slot.
    Event,
    /// An object of the class with this number, with a slot for each field.
    Object(u32),
}

/// How a run ended.
#[derive(Clone, Copy, Debug, PartialEq, Eq)]
pub enum Ending {
    /// No task is left.
    Done,
    /// Tasks are left, and none of them waits for a moment.
    Waiting,
    /// The next moment is above the horizon.
    Until,
    /// No step is left.
    Steps,
    /// A runtime error at a place of the program.
    Error(Kind, Place),
    /// An operation of a machine met an operand of the wrong kind.
    Stuck,
}
