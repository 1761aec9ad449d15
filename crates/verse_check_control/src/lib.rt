//! The rows of `if`, `for`, `loop`, `case`, `sync`, `race`, `rush` and `return`.
//!
//! To be read in this order: `choices`; `loops`; `cases`, patterns and what they cover; `tasks`;
//! `returns`.
//!
//! The public lemmas, which crates above cite, are those of `proofs/Chosen`.
#![tactic(auto)]

pub mod cases;
pub mod choices;
pub mod loops;
pub mod returns;
pub mod tasks;
