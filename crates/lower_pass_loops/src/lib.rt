//! The notes of a program's code pass: `loop` and `for`.
//!
//! To be read in this order, in `proofs/`: `Placing`, pieces that add no operation; `Looped`, the
//! form `loop`; `Taking`, what the operations of a generator ask; `Turns`, its turns; `Generated`,
//! what is known behind it; `Levels`, what is known in the Try of a clause, and the body;
//! `Generators`, a generator with what comes behind it; `Clauses`, a clause of each kind; `Fors`,
//! the form `for`.
//!
//! All of these are public, for the crate that puts the forms together.
#![tactic(auto)]
