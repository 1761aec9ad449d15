//! What is kept of a run can be saved again, once a run has gone on from it: definitions and laws
//! alone, in `Again`.
#![tactic(auto)]

ghost use Rattle.run_save_twice.specs.Again.{FittingCanBeSaved, SavedIsOfRun, ShownCanBeSaved};

/// A run can go on from what fits the code and keeps to what a run does (`IsOfRun`), so that what
/// is kept of it later fits the code.
pub fn fitting_can_be_saved()
    ensures { FittingCanBeSaved }
{}

/// What is kept of a state that could be saved keeps to what a run does.
pub fn saved_is_of_run()
    ensures { SavedIsOfRun }
{}

/// So what is kept of a run can be saved again, once a run has gone on from it.
pub fn shown_can_be_saved()
    ensures { ShownCanBeSaved }
{
    fitting_can_be_saved();
    saved_is_of_run();
}
