//! Stacks that hold the parts of a task's frames.
//!
//! To be read in this order: `layers`, lists one on another in one list; `levels`, the operands,
//! deferred blocks and noted places; `heads`, the places, locals and bounds of handlers.
//!
//! The public lemmas, which crates above cite, are those of `proofs/Lists`.
#![tactic(auto)]

pub mod heads;
pub mod layers;
pub mod levels;
