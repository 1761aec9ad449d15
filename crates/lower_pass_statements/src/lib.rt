//! The notes of a program's code pass: statements in turn, deferred blocks, and conditions.
//!
//! To be read in this order, in `proofs/`: `Deferred`, a deferred block as a statement; `Turns`,
//! one statement and those behind it; `Settled`, what stands behind all of them; `Conditions`,
//! `if`, `option` and `logic`.
//!
//! All of these are public, for the crate that puts the forms together.
#![tactic(auto)]
