//! V7 of a verifier: whether the states to which an operation leads suit.
//!
//! `leading` puts together what the tests of a state's parts say; `specs/Leads` says what the
//! states are to the definitions.
#![tactic(auto)]

pub mod leading;
