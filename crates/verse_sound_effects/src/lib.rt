//! What effects promise, in a program for which the checker has found sorts. Read `specs/Opening`,
//! `Contexts`, `Calls`; what the checker has to find is `FineProgram` of `verse_sound_rules`.
//!
//! In `proofs/`: `Opening`, `OpeningForms`, `OpeningTrees`, an evaluation with a failure context
//! open and with none, through combinators, forms and every tree; `Leaving`, what calls and clauses
//! leave as it was; `Contexts` and `Calls`, the laws.
#![tactic(auto)]

ghost use Rattle.verse_sound_effects.specs.Calls.{CallsArePromised};
ghost use Rattle.verse_sound_effects.specs.Contexts.{ContextsEndAtOnce};
ghost use Rattle.verse_sound_effects.specs.Opening.{ContextsChangeNothing};

use verse_meaning::{cancelling_leaves, contexts_undo, failed_context_leaves};

/// Of every program: an open failure context changes nothing of what is evaluated in it, unless
/// that comes to what takes time or cannot be undone, and is stuck.
pub fn contexts_change_nothing()
    ensures { ContextsChangeNothing }
{}

/// The conditions of every failure context hold or fail at once: nothing is waited for, signalled
/// or spawned in one, and nothing goes on behind it.
pub fn contexts_end_at_once()
    ensures { ContextsEndAtOnce }
{
    failed_context_leaves();
    contexts_undo();
    cancelling_leaves();
}

/// A call of a function that does not decide does not fail; one of a function that neither suspends
/// nor does what cannot be undone ends at once, and leaves tasks, waits, signals and what goes on
/// behind as they were, wherever it is called.
pub fn calls_are_promised()
    ensures { CallsArePromised }
{
    failed_context_leaves();
    contexts_undo();
    cancelling_leaves();
    contexts_change_nothing();
}
