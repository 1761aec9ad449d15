//! The notes of a program's code pass: definitions, failure contexts, and what leaves a function or
//! a loop.
//!
//! To be read in this order, in `proofs/`: `Binding`, what a definition puts into a local, and what
//! is known behind it; `Ways`, `return` and `break`; `Attempted`, `not` and `or`; `Stated`, a
//! statement that defines, and what is known behind it.
//!
//! All of these are public, for the crate that puts the forms together.
#![tactic(auto)]
