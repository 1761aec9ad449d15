//! The notes of a program's code pass: states, where they lead, and what an operation asks of one.
//!
//! To be read in this order, in `proofs/`: `Points`, the point of a state, and what becomes of it
//! where operands come and go and where a Try opens; `Locals`, locals that are written; `Meeting`,
//! a state that leads to what is noted at an index, and stretches of notes that pass; `Steps`, what
//! an operation asks where its operands lie above a state that stays, one lemma an operation;
//! `Writes`, the same of those that write a local; `Operands`, what is taken of operands that fit.
//!
//! All of these are public, for the crates that show stretches and forms.
#![tactic(auto)]
