//! One operation of a machine, with all that it asks of other tasks.
//!
//! To be read in this order: `served`, what an operation asks is served; `steps`, one operation.
//! `Steps` of specs says what these are in the machine's definition.
//!
//! The public lemmas, which crates above cite, are those of `proofs/Starting`.
#![tactic(auto)]

pub mod served;
pub mod steps;
