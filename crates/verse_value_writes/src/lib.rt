//! Writes along a path in a value, and what undoes them.
//!
//! To be read in this order: `paths`, where a write leads; `changes`, what it does there; `writes`,
//! the whole of it.
//!
//! The public lemmas, which crates above cite, are those of `proofs/Ints`.
#![tactic(auto)]

pub mod changes;
pub mod paths;
pub mod writes;
