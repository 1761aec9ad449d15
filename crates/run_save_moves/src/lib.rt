//! What an operation of the machine does to the tasks of a run, move by move. Read the definitions
//! in this order: `Fine`, what a frame and a memory hold; `Moves`, the moves; `Laws`.
//!
//! What each move keeps, each operation keeps, and so a run. The public lemmas for that are those
//! of `proofs/ActsMove` and `proofs/EndsMove`; those of `proofs/Values`, `proofs/Writes` and
//! `proofs/Effects` say that what operations make of values within their limits is within them.
#![tactic(auto)]

ghost use Rattle.run_save_moves.specs.Laws.{OperationMoves};

/// An operation of a valid code goes by moves.
pub fn operation_moves()
    ensures { OperationMoves }
{}
