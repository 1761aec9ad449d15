//! The states of statements, of blocks, and of definitions that are no statements.
//!
//! To be read in this order: `statements`, one by one, with what stands in them; `blocks`.
//!
//! The public lemmas, which crates above cite, are those of `proofs/Steps`.
#![tactic(auto)]

pub mod blocks;
pub mod statements;
