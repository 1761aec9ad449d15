//! Reads the arms of a `case` and their patterns from toks.
#![tactic(auto)]

pub mod patterns;
