//! The tests of waits, over every implementation.
//!
//! To be read in this order: `numbered`, calls on waits by number; `tests`.
#![tactic(auto)]

pub mod numbered;
#[cfg(test)]
mod tests;
