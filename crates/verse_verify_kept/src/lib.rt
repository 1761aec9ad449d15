//! A code whose notes fulfil the rules is never stuck. `Notes` is what notes say of a code, and
//! `Rules` what they must fulfil: one case for each operation. `Kept` says what holds of the frames
//! of every state of a run, `Others` of its other tasks and of a run between two turns; `Laws` is
//! what comes of it.
#![tactic(auto)]

ghost use Rattle.verse_verify_kept.specs.Laws.{NeverStuck};

use verse_code_machine::runs_end;

/// A run of a valid code whose notes fulfil the rules is not stuck, for all inputs, bounds of steps
/// and horizons.
pub fn verified_is_never_stuck()
    ensures { NeverStuck }
{
    runs_end();
}
