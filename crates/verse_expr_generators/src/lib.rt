//! Reads what stands in the brackets of a `for` from toks.
#![tactic(auto)]

pub mod generators;
