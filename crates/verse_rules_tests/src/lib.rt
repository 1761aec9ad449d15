//! The tests of the rules of items and of effects: rows of programs, from the bytes of a file to
//! its tables or its refusal, with ample memory.
//!
//! To be read in this order: `reading`, how a test gets at the tree of a program; `tables`, the
//! rows; `writing`, tables of a program as text; `tests`.
#![tactic(auto)]

pub mod reading;
#[cfg(test)]
mod tables;
#[cfg(test)]
mod tests;
#[cfg(test)]
mod writing;
