//! The tests of traces, and of what they stand on: sinks, files, arithmetic and texts.
//!
//! To be read in this order: `taking_back`, a line that is taken back; `base_tests`;
//! `outside_tests`; `tests`.
#![tactic(auto)]

#[cfg(test)]
mod base_tests;
#[cfg(test)]
mod outside_tests;
pub mod taking_back;
#[cfg(test)]
mod tests;
