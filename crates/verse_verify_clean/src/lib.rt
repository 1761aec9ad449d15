//! Notes that fulfil the rules break none: what `verse_verify_laws` shows, the other way round.
//! `specs/Laws` says so, and what a table has besides that the tests look at.
//!
//! To be read in this order, in `proofs/`: `Fitting`, sorts that fit pass the tests; `Leading`,
//! where an operation leads; `Holding`, what is asked of Trys and blocks; `Steps`, what it takes
//! that an operation breaks no rule; `Values`, `Parts`, `Writes`, `Calls`, `Tasks`, `Marks` and
//! `Blocks`, the operations; `Every`, all of them; `Tables`, classes, functions, entries and
//! the whole.
#![tactic(auto)]

ghost use Rattle.verse_verify_clean.specs.Laws.{VerifiedNotes};

/// Notes that fulfil the rules, of a table with what the tests look at besides, break none of V2
/// to V9.
pub fn verified_notes_are_clean()
    ensures { VerifiedNotes }
{}
