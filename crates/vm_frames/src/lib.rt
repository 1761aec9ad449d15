//! The frames of a machine's task, as the definition of the machine has them.
//!
//! To be read in this order: `threads`, the frames with the steps that were left when each began.
//! `Framed` and `Calls` of specs say what the calls do, `Machine` which frames of a machine they
//! are.
//!
//! The public lemmas, which crates above cite, are those of `proofs/Whole`.
#![tactic(auto)]

pub mod threads;
