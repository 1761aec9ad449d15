//! No two tasks of a run began with as many steps left: definitions and laws alone, in `Numbers`
//! and `Laws`. Each task spends a step as it begins, and its number is what is left then.
#![tactic(auto)]

ghost use Rattle.run_save_apart.specs.Laws.{RunIsApart, ApartGoesOn};

/// In each state of a run between two turns no two tasks have one number.
pub fn run_is_apart()
    ensures { RunIsApart }
{}

/// And so in each state of a run that goes on from such a state.
pub fn apart_goes_on()
    ensures { ApartGoesOn }
{}
