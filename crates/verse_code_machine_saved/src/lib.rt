//! What a run that stopped at its horizon is when it goes on: from where it stood, or resumed from
//! what was kept of that state. `Horizons` has runs from a state and what a horizon leaves;
//! `Numbers` a run seen from another, in which tasks have other numbers and signals and lines stand
//! before; `Resuming` what is kept and the laws of resumed runs; `Pairing` trees that differ in
//! their numbers alone.
//!
//! The public lemmas, which crates above cite, are those of `proofs/Numbers`, `proofs/Settings` and
//! `proofs/Tables`.
#![tactic(auto)]

ghost use Rattle.verse_code_machine_saved.specs.Horizons.{HorizonMoves, HorizonMovesAgain};
ghost use Rattle.verse_code_machine_saved.specs.Horizons.{NoneReached};
ghost use Rattle.verse_code_machine_saved.specs.Numbers.{CancelledRenumbered, SinceRenumbered};
ghost use Rattle.verse_code_machine_saved.specs.Numbers.{ArmsRenumbered, OperationRenumbered};
ghost use Rattle.verse_code_machine_saved.specs.Numbers.{WakingRenumbered, RunRenumbered};
ghost use Rattle.verse_code_machine_saved.specs.Numbers.{NumberingsMeet};
ghost use Rattle.verse_code_machine_saved.specs.Resuming.{SignalsUnheard, RunBehind, RunResumed};
ghost use Rattle.verse_code_machine_saved.specs.Resuming.{RunResumedAgain, ResumedRunEnds};
ghost use Rattle.verse_code_machine_saved.specs.Resuming.{StepsKept};
ghost use Rattle.verse_code_machine_saved.specs.Pairing.{TreesMeet, TablePairs, TableMeets};

use verse_code_machine::runs_end;

/// A run that goes on from where it stood at a horizon is the run to a later horizon.
pub fn horizon_moves()
    ensures { HorizonMoves }
{
    runs_end();
}

/// And so where it had gone on from a state before.
pub fn horizon_moves_again()
    ensures { HorizonMovesAgain }
{}

/// At a horizon no signal reaches a wait that is left, and none waits for a task that is over.
pub fn none_reached()
    ensures { NoneReached }
{}

/// Signals of before that reach none of the waits change nothing of what is due.
pub fn signals_unheard()
    ensures { SignalsUnheard }
{}

/// What is cancelled is so under other numbers, in the same order.
pub fn cancelled_renumbered()
    ensures { CancelledRenumbered }
{}

/// What a frame has begun is so under other numbers.
pub fn since_renumbered()
    ensures { SinceRenumbered }
{}

/// The arms of a group are so under other numbers.
pub fn arms_renumbered()
    ensures { ArmsRenumbered }
{}

/// An operation does, with other numbers and behind signals and lines of before, what it does.
pub fn operation_renumbered()
    ensures { OperationRenumbered }
{}

/// And so does a waking.
pub fn waking_renumbered()
    ensures { WakingRenumbered }
{}

/// A run is the same from trees of tasks with other numbers.
pub fn run_renumbered()
    ensures { RunRenumbered }
{}

/// Two numberings in the same order have a common one.
pub fn numberings_meet()
    ensures { NumberingsMeet }
{}

/// A run is the same with other numbers, and behind signals of before that reach no wait and lines
/// from which its trace goes on.
pub fn run_behind()
    ensures { RunBehind }
{}

/// A run that stopped at its horizon, resumed with a later one from what was kept, is the run to
/// that; its trace is the one so far and then that of the resumed run.
pub fn run_resumed()
    ensures { RunResumed }
{
    runs_end();
}

/// And so where it was itself resumed.
pub fn run_resumed_again()
    ensures { RunResumedAgain }
{}

/// The resumed run of a valid code ends.
pub fn resumed_run_ends()
    ensures { ResumedRunEnds }
{
    runs_end();
}

/// The steps that are left at a horizon and those that were spent are those of the run.
pub fn steps_kept()
    ensures { StepsKept }
{}

/// Trees that differ in their numbers alone, those beneath each path being paired in one order,
/// come to the same under two numberings, as a resumed run asks.
pub fn trees_meet()
    ensures { TreesMeet }
{}

/// In a table that has each task once, the pairs beneath a task are pairs.
pub fn table_pairs()
    ensures { TablePairs }
{}

/// Trees whose numbers are paired by such a table, in one order, are such trees.
pub fn table_meets()
    ensures { TableMeets }
{}
