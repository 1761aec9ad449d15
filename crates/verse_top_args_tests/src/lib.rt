//! The tests of the words of a command line.
//!
//! To be read in this order: `fitting`, whether words are a command; `words_tests`.
#![tactic(auto)]

pub mod fitting;
#[cfg(test)]
mod words_tests;
