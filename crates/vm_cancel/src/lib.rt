//! Cancelled tasks.
//!
//! To be read in this order: `frames`, the deferred blocks of one task; `clears`, those of all
//! cancelled tasks; `cancels`, what a task has begun is cancelled. `Clears` and `Cancels` of specs
//! say what these are in the machine's definition.
#![tactic(auto)]

pub mod cancels;
pub mod clears;
pub mod frames;
