//! Reads primary forms from toks.
//!
//! To be read in this order: `primary`, which there are; `brackets`; `braces`.
#![tactic(auto)]

pub mod braces;
pub mod brackets;
pub mod primary;
