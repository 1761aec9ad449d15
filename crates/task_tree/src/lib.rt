//! Tasks that enclose tasks, under numbers that are used again.
//!
//! To be read in this order: `tasks`, what a task is beside others, and who is told of the tasks
//! that a cancelling removes; `nodes`, where tasks are kept with the numbers of those that stand
//! next to them; `tree`.
//!
//! The public lemmas, which crates above cite, are those of `proofs/Standing`, `proofs/Forests`,
//! `proofs/Ending`, `proofs/Under`, `proofs/Cancelling` and `proofs/Background`.
#![tactic(auto)]

mod nodes;
pub mod tasks;
pub mod tree;
