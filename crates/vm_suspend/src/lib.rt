//! What follows where the task that ran is suspended, or has a result.
//!
//! To be read in this order: `idle`, no task runs, and those above it go on; `asleep`, the running
//! task falls asleep; `results`, a spawned task has given a value, and a task that awaits it.
//! `Idle`, `Asleep` and `Results` of specs say what these are in the machine's definition.
#![tactic(auto)]

pub mod asleep;
pub mod idle;
pub mod results;
