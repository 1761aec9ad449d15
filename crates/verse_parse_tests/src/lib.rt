//! The tests of the readers, of `join` and of what is built. They go from the bytes of a file to
//! its items, with ample memory.
//!
//! To be read in this order: `reading`, how a test gets at toks and trees; `tables`, the rows;
//! `tests`.
#![tactic(auto)]

pub mod reading;
#[cfg(test)]
mod tables;
#[cfg(test)]
mod tests;
