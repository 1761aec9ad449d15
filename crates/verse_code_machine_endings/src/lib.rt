//! With which endings a run is over, whatever the code: before a turn with `Done`, `Waiting`,
//! `Until` or `Steps`, and within a turn with `Steps`, an error, or `Stuck`. The definitions are in
//! `Endings`.
//!
//! The public lemmas, which crates above cite, are those of `proofs/Runs`.
#![tactic(auto)]

ghost use Rattle.verse_code_machine_endings.specs.Endings.{RunsEndSo, RunsEndSoFrom};

/// A run from inputs that is over before a turn has no error and is not stuck, and one that is over
/// within a turn has no step left, or an error, or is stuck.
pub fn runs_end_so()
    ensures { RunsEndSo }
{}

/// And so a run that goes on from a state between two turns.
pub fn runs_end_so_from()
    ensures { RunsEndSoFrom }
{}
