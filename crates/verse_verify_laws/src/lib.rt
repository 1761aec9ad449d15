//! Notes that break no rule keep a code from being stuck. `specs/Laws` says so; the tests of
//! `verse_verify_faults` give the rules of `verse_verify_kept`, operation by operation.
//!
//! In proofs: `Steps` is what it comes to that an operation breaks no rule, `Holding` what its
//! tests do, `Going` where it leads; `Simple` to `Blocks` are the operations, `Every` all of them,
//! `Tables` classes, functions and entries, `Parsed` what bytes give.
#![tactic(auto)]

ghost use Rattle.verse_verify_laws.specs.Laws.{CleanNotes, PassingNotes};

use verse_verify_kept::verified_is_never_stuck;

/// Notes that break none of V2 to V9 fulfil the rules under which a code is never stuck.
pub fn clean_notes_are_verified()
    ensures { CleanNotes }
{}

/// A valid code whose notes break no rule is never stuck, for all inputs, bounds of steps and
/// horizons.
pub fn notes_that_pass()
    ensures { PassingNotes }
{
    verified_is_never_stuck();
}
