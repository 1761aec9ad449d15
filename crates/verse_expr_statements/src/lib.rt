//! Reads statements and blocks from toks.
//!
//! To be read in this order: `statements`; `blocks`.
#![tactic(auto)]

pub mod blocks;
pub mod statements;
