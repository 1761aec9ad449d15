//! V3 of a verifier: whether the notes at the first operation of each function are right, and the
//! first operation at which they are not.
//!
//! To be read in this order: `beginnings`, of one function; `entries`, of all of them.
#![tactic(auto)]

pub mod beginnings;
pub mod entries;
