//! What is kept of a run that stopped at its horizon spells its state and fits its code, where it
//! spells the state if no two tasks have one number: definitions and laws alone, in `Shown`. So
//! much a machine tells of its parts.
#![tactic(auto)]

ghost use Rattle.run_save_shown.specs.Shown.{StoppedRunIsShown, ResumedRunIsShown};

use run_save_apart::{apart_goes_on, run_is_apart};
use run_save_kept::{resumed_states_fit, saved_states_fit};

/// What is kept of a run from inputs that stopped at its horizon spells the state in which it
/// stopped, and fits the code.
pub fn stopped_run_is_shown()
    ensures { StoppedRunIsShown }
{
    run_is_apart();
    saved_states_fit();
}

/// And so where the run had gone on from a state that could be saved.
pub fn resumed_run_is_shown()
    ensures { ResumedRunIsShown }
{
    apart_goes_on();
    resumed_states_fit();
}
