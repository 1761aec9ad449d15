//! What begins later has a number below the births of all frames that stand, whatever the code, so
//! that what a frame has begun is known by its numbers. `Everywhere` says what it is that something
//! holds of all tasks, and `Stages` of what an operation comes to and of a run; `Framed` how all
//! frames began; `Births` that each began when no fewer steps were left than are left; `Later` that
//! what begins has a number below those steps, and counts as begun since each frame.
//!
//! The lemmas that crates above cite are of what holds of all tasks, whatever it is: `Kept`, what
//! has to be so that each operation keeps it; `Ends` and `Acts`, that it does; `Running`, that it
//! then holds in every state of a run.
#![tactic(auto)]

ghost use Rattle.verse_code_machine_births.specs.Births.{OperationKeepsBirths, RunKeepsBirths};
ghost use Rattle.verse_code_machine_births.specs.Later.{NewBelow, WokenBelow, LaterSince};
ghost use Rattle.verse_code_machine_births.specs.Later.{BranchSince, ArmSince};

/// Each operation keeps that every frame began when no fewer steps were left than are left.
pub fn operation_births()
    ensures { OperationKeepsBirths }
{}

/// Between all turns of a run every frame began when no fewer steps were left than are left.
pub fn run_births()
    ensures { RunKeepsBirths }
{}

/// Each task that stands after an operation stood before it, or has a number below the steps that
/// were left.
pub fn new_below()
    ensures { NewBelow }
{}

/// And so where a wait is woken.
pub fn woken_below()
    ensures { WokenBelow }
{}

/// A task beneath the running one with a number below the steps that are left counts as begun since
/// each frame of that.
pub fn later_since()
    ensures { LaterSince }
{}

/// A task behind counts as begun since each frame of the task that begins it.
pub fn branch_since()
    ensures { BranchSince }
{}

/// An arm counts as begun since each frame of the task that begins it.
pub fn arm_since()
    ensures { ArmSince }
{}
