//! The tests of the operations on values, with ample memory.
//!
//! To be read in this order: `making`, large values; `tables`, the rows; `words`, how a row is
//! worked out; `tests`.
#![tactic(auto)]

pub mod making;
#[cfg(test)]
mod tables;
#[cfg(test)]
mod tests;
#[cfg(test)]
mod words;
