//! The verifier: whether bytes are notes of a code that keep it from being stuck.
//!
//! `faults` says what it answers, `verifying` has the call. `specs/Answers` says which answers are
//! those of the rules.
#![tactic(auto)]

pub mod faults;
pub mod verifying;
