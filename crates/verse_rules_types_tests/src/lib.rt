//! The tests of types.
//!
//! To be read in this order: `copying`, copies of types; `tests`.
#![tactic(auto)]

pub mod copying;
#[cfg(test)]
mod tests;
