//! The tests of images, and of the codes that they spell.
//!
//! To be read in this order: `again`, a code that is written and read again; `code_tests`; `tests`.
#![tactic(auto)]

pub mod again;
#[cfg(test)]
mod code_tests;
#[cfg(test)]
mod tests;
