//! One operation of a machine, on a task that runs.
//!
//! To be read in this order: `kinds`, the operations sorted by what they work on; `pushing`,
//! `numbers`, `composites`, `stores`, `controls` and `others`, those of each kind; `acting`, any
//! operation.
#![tactic(auto)]

pub mod acting;
pub mod composites;
pub mod controls;
pub mod kinds;
pub mod numbers;
pub mod others;
pub mod pushing;
pub mod stores;
