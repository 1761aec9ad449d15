//! The words after the program's name, and the command that they are.
//!
//! To be read in this order: `commands`, over `options` and `numbers`. The lemmas of
//! `CommandLemmas` in `proofs/` are the crate's own for those above.
#![tactic(auto)]

pub mod commands;
mod numbers;
mod options;
