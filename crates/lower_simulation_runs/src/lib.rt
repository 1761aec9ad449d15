//! The code of a program runs on the machine as the program means: from what is shown of the forms
//! to whole runs. Read the definitions in this order: `Programs`, what is asked of a program;
//! `Laws`.
//!
//! In `proofs/`: `Runs`, the forest and its turns; `Entering`, calls and spawned calls from what
//! bodies lead to; `Starting`, the run from Main; `Firm` and `FirmForms`, the code of a body leaves
//! no loop around it; `Binding`, parameters with their arguments; `Standings`, where the bodies of
//! a program stand in its code; `Placing`, where functions, methods and defaults stand among those
//! bodies, and the tables of the code; `Numbering`, their numbers, from those of their nodes;
//! `Bodies`, all bodies and calls by the bound of the steps; `Fitting`, what is asked of trees;
//! `Shaping`, what of that the shapes of parsed trees give; `Forms`, every form; `Programs`, whole
//! programs; `Example`, a program of which all that is asked holds.
#![tactic(auto)]

ghost use Rattle.lower_simulation_runs.specs.Laws.{CodeMeansTheSame, TurnsAreTheSame};

use lower_bounds::code_is_valid;
use verse_code_machine::runs_end;

/// The code of a program that can be followed does what the program means.
pub fn code_means_the_same()
    ensures { CodeMeansTheSame }
{
    runs_end();
    code_is_valid();
}

/// After each number of turns the machine of its code stands where the program does.
pub fn turns_are_the_same()
    ensures { TurnsAreTheSame }
{
    runs_end();
    code_is_valid();
}
