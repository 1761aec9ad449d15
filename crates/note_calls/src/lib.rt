//! The states of calls, of what is indexed, and of calls that are spawned.
//!
//! To be read in this order: `actions`, what is done with operands; `calls`, by what a callee
//! stands for.
#![tactic(auto)]

pub mod actions;
pub mod calls;
