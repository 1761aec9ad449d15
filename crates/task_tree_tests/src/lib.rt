//! The tests of trees of tasks.
//!
//! To be read in this order: `seen`, a visitor; `guarded`, the calls that have a condition, made
//! where it holds.
#![tactic(auto)]

pub mod guarded;
pub mod seen;
#[cfg(test)]
mod tests;
