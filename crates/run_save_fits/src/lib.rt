//! What is kept of a run that stopped at its horizon fits its code. Read the definitions in this
//! order: `Held`, what every state between two turns holds; `Laws`.
#![tactic(auto)]

ghost use Rattle.run_save_fits.specs.Laws.{RunIsSavable, SavableGoesOn, StoppedRunFits};
ghost use Rattle.run_save_fits.specs.Laws.{ResumedRunFits};

use verse_code_machine::run_belongs;

/// Each state of a run between two turns can be saved: its values are within their limits, its
/// frames stand where they may, and there are no more tasks, frames, entries and waits than steps
/// were spent.
pub fn run_is_savable()
    ensures { RunIsSavable }
{}

/// And so each state of a run that goes on from such a state.
pub fn savable_goes_on()
    ensures { SavableGoesOn }
{}

/// What is kept of a run that stopped at its horizon fits its code, but for the arms of groups and
/// the order of siblings.
pub fn stopped_run_fits()
    ensures { StoppedRunFits }
{
    run_belongs();
}

/// And so where the run had gone on from a state that could be saved.
pub fn resumed_run_fits()
    ensures { ResumedRunFits }
{}
