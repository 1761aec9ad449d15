//! Parents stand behind their children, in every state of every run, whatever the code. `Parents`
//! says which tasks stand where, and what that asks of the frames of a task; `Cancelled` says which
//! of them are cancelled.
#![tactic(auto)]

ghost use Rattle.verse_code_machine_parents.specs.Parents.{OperationRoots, RunRoots};
ghost use Rattle.verse_code_machine_parents.specs.Cancelled.{CancelledOnce, NoneSince};

/// Each operation keeps that arms and tasks behind stand before their parents.
pub fn operation_roots()
    ensures { OperationRoots }
{}

/// Between all turns of a run arms and tasks behind stand before their parents.
pub fn run_roots()
    ensures { RunRoots }
{}

/// Of the other tasks in a tree those that are cancelled are cancelled once each, and the others
/// stay as they stand.
pub fn cancelled_once()
    ensures { CancelledOnce }
{}

/// Where a frame begins, nothing that stands already counts as begun since: what is cancelled when
/// the frame returns has begun later.
pub fn none_since()
    ensures { NoneSince }
{}
