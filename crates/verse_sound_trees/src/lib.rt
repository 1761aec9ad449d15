//! Each tree comes to an outcome of its node's sort: the main lemma, form by form.
//!
//! Read `specs/Names`, `specs/Outcomes`, outcomes of a sort; `specs/Waiting` and `specs/Going`,
//! what is left of an evaluation that goes on well for so many turns; `specs/Deep`, what is asked
//! of all that begins by a step; `specs/Bounds`, what holds round the body of a scope.
//!
//! In `proofs/`: how outcomes pass through what forms make of them; forms with operands are
//! applied; scopes end, go on and are cancelled, with what is in their background, and groups of
//! arms; `Lists`, operands of a form are a list; `Loops`, turns of loops; `Statements`; `Levels`,
//! the levels of a `for`; `Trees`, one case for each shape.
#![tactic(auto)]
