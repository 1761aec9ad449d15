//! Reads primary forms of one tok and those that begin with a word from toks.
//!
//! To be read in this order: `leaves`; `words`, which share a shape; `forms`, `for` and `case`.
#![tactic(auto)]

pub mod forms;
pub mod leaves;
pub mod words;
