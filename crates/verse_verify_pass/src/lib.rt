//! V3 to V9 of a verifier: the first operation of a code whose notes break one of them, and which.
//!
//! To be read in this order: `operations`, the rule that an operation breaks with its operands, one
//! arm an operation; `states`, with the state at it; `passing`, the first of all.
#![tactic(auto)]

pub mod operations;
pub mod passing;
pub mod states;
