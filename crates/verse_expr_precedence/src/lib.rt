//! Reads what operators join from toks.
//!
//! To be read in this order: `postfixes`; `levels`, from the loosest.
#![tactic(auto)]

pub mod levels;
pub mod postfixes;
