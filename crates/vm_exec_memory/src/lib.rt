//! The operations of a machine that work on the store and the trace: each is a call on a task that
//! runs.
//!
//! To be read in this order: `contexts`, failure contexts; `printing`, a line; `slots`, which slots
//! there are; `cells`, new cells; `reading`, what a slot holds; `writing`, what is written in it.
//! Each call comes to what the machine's definition has for its operation.
//!
//! The public lemmas, which crates above cite, are those of `proofs/Handed`, `proofs/Effects` and
//! `proofs/Stores`.
#![tactic(auto)]

pub mod cells;
pub mod contexts;
pub mod printing;
pub mod reading;
pub mod slots;
pub mod writing;
