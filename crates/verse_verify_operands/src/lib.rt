//! What an operation asks of its operands, and what it finds by them.
//!
//! To be read in this order: `asking`, tests of operands; `finding`, the parts of what operands
//! name. `specs/Finds` says what is found, as a result.
#![tactic(auto)]

pub mod asking;
pub mod finding;
