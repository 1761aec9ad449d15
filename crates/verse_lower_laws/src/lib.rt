//! What authors rely on, said of the machine that runs the code of their program. Each law holds of
//! every program whose code means the same, for all inputs, bounds of steps and horizons, after
//! each number of turns. Read `specs/Laws`.
#![tactic(auto)]

ghost use Rattle.verse_lower_laws.specs.Laws.{
  LinesAreKept,
  NumbersLiveOnce,
  OthersStayLive,
  RunsTellAll,
  StepsAreBounded,
  WaitsAreDistinct,
};

use lower_bounds::code_is_valid;
use lower_simulation_runs::turns_are_the_same;
use verse_code_machine::{runs_end, stays_over};
use verse_meaning::{groups_wait, lines_stay, nothing_lost, numbers_once, steps_counted};

/// A line that the program has written stays: no later turn takes it back, changes it, or puts one
/// before it. So what was sent out between two turns was right to send.
pub fn lines_are_kept()
    ensures { LinesAreKept }
{
    turns_are_the_same();
    lines_stay();
}

/// No two waits that are live have one number, so a wait that is woken is the one that was due.
pub fn waits_are_distinct()
    ensures { WaitsAreDistinct }
{
    turns_are_the_same();
    numbers_once();
}

/// Each wait is woken or cancelled at most once: a turn takes what it wakes, it adds waits with new
/// numbers alone, and a number that is gone never comes back.
pub fn numbers_live_once()
    ensures { NumbersLiveOnce }
{
    turns_are_the_same();
    numbers_once();
}

/// No wait is lost: where one is woken, each other one is still live, but for those that a race, a
/// rush or the end of a scope may have cancelled.
pub fn others_stay_live()
    ensures { OthersStayLive }
{
    turns_are_the_same();
    nothing_lost();
    groups_wait();
}

/// Steps are spent and never given back: those left and those spent are together the bound that
/// the run was given, after each turn.
pub fn steps_are_bounded()
    ensures { StepsAreBounded }
{
    turns_are_the_same();
    steps_counted();
}

/// What is told of a run at its end has all lines of its turns, in their order, and no more steps
/// than the run was given.
pub fn runs_tell_all()
    ensures { RunsTellAll }
{
    turns_are_the_same();
    lines_stay();
    steps_counted();
    runs_end();
    stays_over();
    code_is_valid();
}
