//! Soundness of types: a program for which the checker has found sorts is never stuck. Read
//! `specs/Laws` and `Promises`; what the checker has to find is `FineProgram` of
//! `verse_sound_rules`.
//!
//! In `proofs/`: `Calls`, all that begins by a step, as deep as there are steps; `Due`, which wait
//! is next; `Turns`, one turn; `Steps`, a turn spends a step; `Runs`, whole runs; `Examples`, a
//! small program that is fine; `Promises`, what effects promise of calls.
#![tactic(auto)]

ghost use Rattle.verse_sound_runs.specs.Laws.{NeverStuck, SmallIsFine, TurnsGoRight};
ghost use Rattle.verse_sound_runs.specs.Promises.{CallsKeepPromises};

use verse_meaning::{cancelling_leaves, contexts_undo, failed_context_leaves, steps_counted};

/// In no turn of such a program is an operand of a wrong kind, for all inputs, bounds of steps and
/// horizons; nor does it come to what the definitions leave to no sound program.
pub fn turns_go_right()
    ensures { TurnsGoRight }
{
    failed_context_leaves();
    contexts_undo();
    cancelling_leaves();
}

/// The run of such a program never ends stuck, for all inputs, bounds of steps and horizons.
pub fn never_stuck()
    ensures { NeverStuck }
{
    failed_context_leaves();
    contexts_undo();
    cancelling_leaves();
    steps_counted();
}

/// A call of a function that does not decide does not fail, and one of a function that neither
/// suspends nor does what cannot be undone suspends nothing.
pub fn calls_keep_promises()
    ensures { CallsKeepPromises }
{
    failed_context_leaves();
    contexts_undo();
    cancelling_leaves();
}

/// The laws are not about none: for a small program with a definition, a name and a sum there are
/// such sorts.
pub fn small_is_fine()
    ensures { SmallIsFine }
{}
