//! What is kept of a run that stopped at its horizon fits its code, whole: its arms and the order
//! of siblings too. Read the definitions in this order: `Orders`, how the tasks stand to one
//! another in every state between two turns; `Laws`; `Growing`, the trees from their tasks in the
//! order in which they are kept.
#![tactic(auto)]

ghost use Rattle.run_save_kept.specs.Laws.{RunIsOrderly, OrderlyGoesOn, SavedStatesFit};
ghost use Rattle.run_save_kept.specs.Laws.{ResumedStatesFit};
ghost use Rattle.run_save_kept.specs.Growing.{TreesGrowAgain};

use run_save_fits::{resumed_run_fits, stopped_run_fits};

/// In each state of a run between two turns tasks stand in the order in which they began, each
/// before its parent; each arm that runs is a task, and none that its parent began later is in the
/// background.
pub fn run_is_orderly()
    ensures { RunIsOrderly }
{}

/// And so in each state of a run that goes on from such a state.
pub fn orderly_goes_on()
    ensures { OrderlyGoesOn }
{}

/// What is kept of a run that stopped at its horizon fits its code.
pub fn saved_states_fit()
    ensures { SavedStatesFit }
{
    stopped_run_fits();
}

/// And so where the run had gone on from a state that could be saved.
pub fn resumed_states_fit()
    ensures { ResumedStatesFit }
{
    resumed_run_fits();
}

/// The tasks of such a state, planted one by one in the order in which they are kept, are its trees
/// again.
pub fn trees_grow_again()
    ensures { TreesGrowAgain }
{}
