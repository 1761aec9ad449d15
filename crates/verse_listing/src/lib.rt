//! Listings: a code as text, and back.
//!
//! To be read in this order: `faults`, `assembling`; `laws`.
#![tactic(auto)]

pub mod assembling;
pub mod faults;
pub mod laws;
