//! Bytecode as data: the operations, the code with its tables, and when a code is valid.
//!
//! To be read in this order: `operands`, `operations`, `shapes`, `laws`, the operations and their
//! table; `tables`, `codes`, a program; `validity`. The public lemmas, which crates above cite, are
//! `proofs/Agree`.
#![tactic(auto)]

pub mod codes;
pub mod laws;
pub mod operands;
pub mod operations;
pub mod shapes;
pub mod tables;
pub mod validity;
