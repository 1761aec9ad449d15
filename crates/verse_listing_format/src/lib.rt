//! The format of listings, a code as text.
//!
//! To be read in this order: `names`, `numbers`; `laws`.
#![tactic(auto)]

pub mod laws;
pub mod names;
pub mod numbers;
