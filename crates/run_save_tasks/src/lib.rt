//! The tasks of a saved run are read: from bytes on a task and the bytes behind it, or the first
//! failing place.
//!
//! To be read in this order: `known`, what tasks are read against; `frames`; `waits`, the numbers
//! of waits; `rests`, what a task waits for; `tasks`.
#![tactic(auto)]

mod frames;
pub mod known;
mod rests;
pub mod tasks;
pub mod waits;
