//! A run that stopped at its horizon goes on from what is kept of it. Laws alone, to be read in
//! this order: `Alike`, trees that differ in their numbers alone; `Runs`, what is kept spells its
//! trees again, but for their numbers; `Again`, and spells its state; `Laws`, the trees that are
//! spelled are its trees, with other numbers in the same order beneath each task, and so the run
//! is the same.
#![tactic(auto)]

ghost use Rattle.run_save_same.specs.Again.{SpelledStateIsApart, KeptStepsAreTheRuns};
ghost use Rattle.run_save_same.specs.Again.{SavedRunGoesOn, SavedRunIsTheRun};
ghost use Rattle.run_save_same.specs.Alike.{TreesAreSpelled};
ghost use Rattle.run_save_same.specs.Runs.{StoppedRunIsSpelled};
ghost use Rattle.run_save_same.specs.Laws.{SpelledTreesAreTheSame, SpelledRunIsTheSame};
ghost use Rattle.run_save_same.specs.Laws.{StoppedRunIsHeld, KeptRunGoesOn, HeldGoesOn};
ghost use Rattle.run_save_same.specs.Laws.{HeldRunGoesOn};

use run_save_births::{births_go_on, run_is_born};
use run_save_fits::{run_is_savable, savable_goes_on};
use run_save_groups::{arms_go_on, run_keeps_arms};
use run_save_kept::{orderly_goes_on, run_is_orderly, saved_states_fit};
use run_save_orders::{kept_is_same_but_order, run_reordered, run_sorted, table_sorts};
use run_save_resumes::{fits_is_resumable, fitting_run_ends};
use verse_code_machine::runs_end_from;
use verse_code_machine_saved::{run_resumed, run_resumed_again, steps_kept, table_pairs};

/// What is kept of a state spells that state without its signals and its lines.
pub fn spelled_state_is_apart()
    ensures { SpelledStateIsApart }
{}

/// The steps left and spent that are kept are the steps of the run.
pub fn kept_steps_are_the_runs()
    ensures { KeptStepsAreTheRuns }
{
    steps_kept();
}

/// A run can go on from what is kept of a run that stopped, and ends.
pub fn saved_run_goes_on()
    ensures { SavedRunGoesOn }
{
    steps_kept();
    saved_states_fit();
    fits_is_resumable();
    fitting_run_ends();
}

/// Where only the numbers of tasks are others, that run is the run to the later horizon.
pub fn saved_run_is_the_run()
    ensures { SavedRunIsTheRun }
{
    run_resumed();
}

/// The trees of tasks that are spelled are those of the state, but for the numbers of tasks and
/// frames.
pub fn trees_are_spelled()
    ensures { TreesAreSpelled }
{}

/// And so of a run that stopped at its horizon; its live waits are spelled as they are.
pub fn stopped_run_is_spelled()
    ensures { StoppedRunIsSpelled }
{
    run_is_savable();
    run_is_orderly();
}

/// Of what is kept of a state between two turns, the trees that are spelled are its trees, with
/// other numbers in the same order beneath each task, and parents stand behind their children.
pub fn spelled_trees_are_the_same()
    ensures { SpelledTreesAreTheSame }
{
    table_pairs();
    table_sorts();
}

/// So a run that goes on from what is kept is the run from the state without its signals and lines.
pub fn spelled_run_is_the_same()
    ensures { SpelledRunIsTheSame }
{
    table_pairs();
    spelled_trees_are_the_same();
    kept_is_same_but_order();
    run_reordered();
    run_sorted();
}

/// Where a run stopped at its horizon there is such a state.
pub fn stopped_run_is_held()
    ensures { StoppedRunIsHeld }
{
    run_is_savable();
    run_is_orderly();
    run_is_born();
    run_keeps_arms();
}

/// A run that stopped at its horizon, gone on from what is kept of it, is the run to the later
/// horizon.
pub fn kept_run_goes_on()
    ensures { KeptRunGoesOn }
{
    stopped_run_is_held();
    run_resumed();
    spelled_run_is_the_same();
}

/// A run that goes on from a state between two turns and stops leaves such a state.
pub fn held_goes_on()
    ensures { HeldGoesOn }
{
    savable_goes_on();
    orderly_goes_on();
    births_go_on();
    arms_go_on();
}

/// And where it began without a signal it goes on from what is kept of that.
pub fn held_run_goes_on()
    ensures { HeldRunGoesOn }
{
    runs_end_from();
    held_goes_on();
    run_resumed_again();
    spelled_run_is_the_same();
}
