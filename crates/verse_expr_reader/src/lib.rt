//! Readers of toks: what they have in common, and types.
//!
//! To be read in this order: `steps`, how readers go over toks; `spans`, what their spans hold;
//! `types`; `nesting`, how what is nested is read; `lists`.
//!
//! The public lemmas, which crates above cite, are those of `proofs/Faults` and `proofs/Rows`.
#![tactic(auto)]

pub mod lists;
pub mod nesting;
pub mod spans;
pub mod steps;
pub mod types;
