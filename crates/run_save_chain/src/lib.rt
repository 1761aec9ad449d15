//! A run that is saved, taken up from what was kept of it, and saved again, any number of times, is
//! the one run: definitions and laws alone, in `Chains`.
#![tactic(auto)]

ghost use Rattle.run_save_chain.specs.Chains.{HeldSpelled, ChainIsHeld, ChainKeepsSteps};
ghost use Rattle.run_save_chain.specs.Chains.{ChainIsTheRun, ChainFits, FittingIsApart};
ghost use Rattle.run_save_chain.specs.Chains.{ChainCanBeSaved};

use run_save_fits::savable_goes_on;
use run_save_kept::{resumed_states_fit, saved_states_fit};
use run_save_resumes::fits_is_resumable;
use run_save_same::{
    held_goes_on, held_run_goes_on, kept_run_goes_on, spelled_trees_are_the_same,
    stopped_run_is_held, trees_are_spelled,
};
use verse_code_machine::{run_belongs_from, runs_end_from, stays_over_from};

/// What holds of a state between two turns holds of the state that is spelled of what is kept of
/// it.
pub fn held_spelled()
    ensures { HeldSpelled }
{
    trees_are_spelled();
    spelled_trees_are_the_same();
}

/// So it holds of the state that is spelled of what was kept last in a chain of saves.
pub fn chain_is_held()
    ensures { ChainIsHeld }
{
    held_spelled();
    stopped_run_is_held();
    held_goes_on();
    runs_end_from();
    stays_over_from();
}

/// The steps left and spent that were kept last are those of the run.
pub fn chain_keeps_steps()
    ensures { ChainKeepsSteps }
{
    chain_is_held();
}

/// A run that was saved and taken up any number of times, and is taken up from what was kept last,
/// is the run from the inputs.
pub fn chain_is_the_run()
    ensures { ChainIsTheRun }
{
    chain_is_held();
    kept_run_goes_on();
    held_run_goes_on();
    runs_end_from();
    stays_over_from();
}

/// What was kept last fits the code.
pub fn chain_fits()
    ensures { ChainFits }
{
    chain_is_held();
    saved_states_fit();
    resumed_states_fit();
    fits_is_resumable();
    run_belongs_from();
}

/// What fits a code spells tasks of which no two have one number.
pub fn fitting_is_apart()
    ensures { FittingIsApart }
{}

/// The run that is taken up from what was kept last can be saved again.
pub fn chain_can_be_saved()
    ensures { ChainCanBeSaved }
{
    chain_is_held();
    chain_fits();
    fitting_is_apart();
    savable_goes_on();
}
