//! A function that does not suspend is never suspended, in a program for which the checker has
//! found sorts, though it may spawn and signal. Read `specs/Waits`, what a tree without waits is,
//! then `Calls`.
//!
//! In `proofs/`: `Passing`, outcomes that do not rest, through the combinators; `Forms`, the forms
//! with operands; `Trees`, every tree; `Calls`, the law.
#![tactic(auto)]

ghost use Rattle.verse_sound_waits.specs.Calls.{CallsNeverRest};

use verse_meaning::{cancelling_leaves, contexts_undo, failed_context_leaves};
use verse_sound_effects::contexts_change_nothing;

/// A call of a function that does not suspend comes to a value, a failure, an error or the want of
/// steps, and never rests, wherever it is called; whatever it has spawned may rest.
pub fn calls_never_rest()
    ensures { CallsNeverRest }
{
    failed_context_leaves();
    contexts_undo();
    cancelling_leaves();
    contexts_change_nothing();
}
