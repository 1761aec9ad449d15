//! What small codes do, held by their runs: `Rows` has a code and its run for each case of an
//! operation that a wrong definition of the machine could miss. No law below says what an operation
//! does, so these are the test of the table of operations.
#![tactic(auto)]

ghost use Rattle.verse_code_machine_laws.specs.Rows.{
  ValuesRun,
  CellsRun,
  AttemptsRun,
  CallsRun,
  DomainsRun,
  DeferredRun,
  TasksRun,
  CancellingRuns,
};

/// Operands of a kind that an operation does not take are stuck; what is compared or looked up
/// under another kind differs or is absent; an operation may have no operands at all; at the end
/// of the code a task is stuck.
pub fn values_run()
    ensures { ValuesRun }
{}

/// A write goes through its path from the left: what comes first, stuck or failed, is what it
/// comes to. A cell that was made in a failed attempt is gone, and its address is given anew.
pub fn cells_run()
    ensures { CellsRun }
{}

/// Within an attempt a task goes on between its `Try` and its label alone, and is stuck where it
/// would leave these bounds, before an error; at a failure the operands beneath it stand again.
pub fn attempts_run()
    ensures { AttemptsRun }
{}

/// A call and a method take as many operands as the function has parameters, above the innermost
/// attempt; a failure leaves every frame above the attempt.
pub fn calls_run()
    ensures { CallsRun }
{}

/// A `for` goes over arrays, maps and ranges of ints and over nothing else; each value taken spends
/// a step, and the locals that it writes are there.
pub fn domains_run()
    ensures { DomainsRun }
{}

/// A deferred block spends a step and comes back to where its frame was; a frame leaves no block
/// that an attempt keeps, returns with none left, and is not suspended in one.
pub fn deferred_run()
    ensures { DeferredRun }
{}

/// A group has at least one arm and each of them an `Arm`; an arm ends in its own first frame; no
/// task is suspended, spawned or signalled in an attempt or a deferred block.
pub fn tasks_run()
    ensures { TasksRun }
{}

/// What an arm, a call or a race leaves behind is cancelled as it ends: the last begun first, each
/// with its frames from the last to the first, and a deferred block of it may not be suspended or
/// fail.
pub fn cancelling_runs()
    ensures { CancellingRuns }
{}
