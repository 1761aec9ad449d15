//! The notes of a program break no rule, where the program is fine and its code is valid.
//!
//! In `proofs/`: `Passing`.
#![tactic(auto)]
