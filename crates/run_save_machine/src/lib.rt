//! A machine between two turns, made of what is kept of a run.
//!
//! To be read in this order: `cells`, the store; `running`, what the machine works on, where no
//! task runs; `results`, what spawned tasks gave; `tasks`, suspended tasks are put into a tree;
//! `beside`, all that is kept of them; `machines`, the whole. Of the definitions `Filled` says
//! what the store is, `Putting` when tasks can be put, and `Resting` what the machine is then.
#![tactic(auto)]

mod beside;
pub mod cells;
pub mod machines;
mod results;
pub mod running;
mod tasks;
