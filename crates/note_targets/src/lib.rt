//! The states of `set`, and of what it writes to.
#![tactic(auto)]

pub mod targets;
