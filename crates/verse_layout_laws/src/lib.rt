//! Laws of the layout of tokens, and the tests of `verse_layout`.
//!
//! The laws stand in `laws`, and what they say in `specs/Laws`. Crates above cite `proofs/Unique`,
//! its public lemmas.
//!
//! To be read in this order: `laws`; `tests`.
#![tactic(auto)]

pub mod laws;
#[cfg(test)]
mod tests;
