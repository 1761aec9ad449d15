//! How the tokens of a file are spelled, and what breaks each rule, as laws of `verse_lex`.
//!
//! The laws stand in `laws`, and what they say in `specs/Spelling` and `specs/Indents`. The tests
//! of `verse_lex` are here too. Crates above cite `proofs/Spelled`, its public lemmas.
//!
//! To be read in this order: `laws`; `tests`.
#![tactic(auto)]

pub mod laws;
#[cfg(test)]
mod tests;
