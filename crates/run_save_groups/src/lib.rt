//! When the arms of a group began: in every state between two turns, whatever the code, later than
//! each frame of the task that stands at it. The definitions are in `Arms` and `Laws`.
#![tactic(auto)]

ghost use Rattle.run_save_groups.specs.Laws.{OperationKeepsArms, RunKeepsArms, ArmsGoOn};

/// Each operation keeps that the arms of a group began later than the frames of its task.
pub fn operation_keeps_arms()
    ensures { OperationKeepsArms }
{}

/// And so it is in each state of a run between two turns.
pub fn run_keeps_arms()
    ensures { RunKeepsArms }
{}

/// And in each state of a run that goes on from such a state.
pub fn arms_go_on()
    ensures { ArmsGoOn }
{}
