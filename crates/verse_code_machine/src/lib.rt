//! What a machine does with bytecode: its tasks, each operation, cancelling, and whole runs. Read
//! the definitions in this order: `Tasks`, `Frames`, `Cancelling`, `Ends`, `Acts` (one case for
//! each operation), `Runs`, `Belonging`, `Laws`, `Goings` (runs from a state between two turns).
//! `Acts` in proofs shows that each operation lowers a weight. The public lemmas, which crates
//! above cite, are those of `proofs/Goings`, `proofs/Paths`, `proofs/Acts` and `proofs/Whole`.
#![tactic(auto)]

ghost use Rattle.verse_code_machine.specs.Belonging.{OperationKeeps, RunBelongs};
ghost use Rattle.verse_code_machine.specs.Goings.{RunsEndFrom, StaysOverFrom, RunBelongsFrom};
ghost use Rattle.verse_code_machine.specs.Laws.{RunsEnd, StaysOver};

/// A run of a valid code ends: the operations of each turn come to an end, and so do the turns.
pub fn runs_end()
    ensures { RunsEnd }
{}

/// A run that is over stays over.
pub fn stays_over()
    ensures { StaysOver }
{}

/// Each operation keeps that a machine's state belongs to its code.
pub fn operation_keeps()
    ensures { OperationKeeps }
{}

/// Every state of a run belongs to its code.
pub fn run_belongs()
    ensures { RunBelongs }
{}

/// A run of a valid code ends also from a state between two turns, wherever that is from: no task
/// has a handler or a noted place, there are at most two frames for each step that was spent, and
/// the run's steps are those left and those spent.
pub fn runs_end_from()
    ensures { RunsEndFrom }
{}

/// A run from a state that is over stays over.
pub fn stays_over_from()
    ensures { StaysOverFrom }
{}

/// From a state that belongs to its code, every state of a run does.
pub fn run_belongs_from()
    ensures { RunBelongsFrom }
{}
