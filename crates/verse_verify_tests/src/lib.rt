//! The tests of the verifier.
//!
//! To be read in this order: `answers`, what it says of an image and notes; `tests`.
#![tactic(auto)]

pub mod answers;
#[cfg(test)]
mod tests;
