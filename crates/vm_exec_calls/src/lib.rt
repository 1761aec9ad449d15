//! The operations of a machine that call, and those of deferred blocks: each is a call on a task
//! that runs.
//!
//! To be read in this order: `calling`, a new frame; `methods`, the method of an object;
//! `deferring`, deferred blocks. Each call comes to what the machine's definition has for its
//! operation.
//!
//! The public lemmas, which crates above cite, are those of `proofs/Choosing`.
#![tactic(auto)]

pub mod calling;
pub mod deferring;
pub mod methods;
