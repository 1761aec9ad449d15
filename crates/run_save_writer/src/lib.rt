//! Saved runs are written.
//!
//! To be read in this order: `numbers`; `keys` and `values`; `cells`, what is kept of the heap and
//! of spawned tasks; `frames`, `rests` and `tasks`; `saving`, the public call.
#![tactic(auto)]

mod cells;
mod frames;
mod keys;
mod numbers;
mod rests;
pub mod saving;
mod tasks;
mod values;
