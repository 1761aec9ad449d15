//! When the frames of a run's tasks began: in every state between two turns, whatever the code, the
//! births of a task's frames rise from the top one down, and none is the number of a child. The
//! definitions are in `Births` and `Laws`.
#![tactic(auto)]

ghost use Rattle.run_save_births.specs.Laws.{OperationIsBorn, RunIsBorn, BirthsGoOn};

/// Each operation keeps, for each path and number, that no frame of the path's task was born then,
/// or that no task is its child of that number.
pub fn operation_is_born()
    ensures { OperationIsBorn }
{}

/// In each state of a run between two turns the frames of each task were born one after the other,
/// and no child has one of their births as its number.
pub fn run_is_born()
    ensures { RunIsBorn }
{}

/// And so in each state of a run that goes on from such a state.
pub fn births_go_on()
    ensures { BirthsGoOn }
{}
