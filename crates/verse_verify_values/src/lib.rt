//! The rule that an operation breaks which computes: one function for each operation, or for those
//! that ask the same and push the same.
//!
//! To be read in this order: `pushing`, operations that push a value of their own, and what they
//! share with all others here; `numbers`, operations on numbers; `containers`, what puts values
//! together and takes them apart. `specs/Rows` says what operations break that are alike.
#![tactic(auto)]

pub mod containers;
pub mod numbers;
pub mod pushing;
