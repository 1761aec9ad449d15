//! Reads what items are made of from toks.
//!
//! To be read in this order: `names`, specifiers, names with dots and paths; `enums`; `functions`.
//!
//! The public lemmas, which crates above cite, are those of `proofs/Steps` and `proofs/Rows`.
#![tactic(auto)]

pub mod enums;
pub mod functions;
pub mod names;
