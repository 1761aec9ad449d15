//! Tasks that are over.
//!
//! To be read in this order: `arms`, the arm of a group that is the task of a number; `groups`, a
//! task goes on at its group, or those above it do; `parts`, an arm or a task behind is over;
//! `roots`, Main or a spawned task. `Arms`, `Groups` and `Overs` of specs say what these are in
//! the machine's definition.
//!
//! The public lemmas, which crates above cite, are those of `proofs/Leaving`.
#![tactic(auto)]

pub mod arms;
pub mod groups;
pub mod parts;
pub mod roots;
