//! What the answers of commands promise beside what they are: no run of an accepted program ends
//! stuck. Read `specs/Statuses`; the proof is in `proofs/Statuses`.
#![tactic(auto)]

ghost use Rattle.verse_top_laws.specs.Statuses.{
  BuiltIsNeverStuck,
  LoadIsNeverStuck,
  RunIsNeverStuck,
};

use verse_accept_sound::accepted_items_are_never_stuck;
use verse_top::answers::{answered_once, exec_runs_what_is_built};

/// The answer to `run` has status 0, 1, 3 or 4, and never 8, that of a run that ends stuck: no
/// operand of an accepted program is of a wrong kind.
pub fn run_is_never_stuck()
    ensures { RunIsNeverStuck }
{
    accepted_items_are_never_stuck();
}

/// The same of the run of the generated load.
pub fn load_is_never_stuck()
    ensures { LoadIsNeverStuck }
{
    accepted_items_are_never_stuck();
}

/// `exec` of what `build` wrote has status 0, 3 or 4.
pub fn built_is_never_stuck()
    ensures { BuiltIsNeverStuck }
{
    accepted_items_are_never_stuck();
    answered_once();
    exec_runs_what_is_built();
}
