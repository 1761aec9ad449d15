//! Signals, the next turn of a run, and its start.
//!
//! To be read in this order: `signals`, an event is signalled; `values`, what a task that is woken
//! goes on with; `turns`, the next wait that is due, and its task goes on; `starts`, Main begins.
//! `Signals`, `Values`, `Turns` and `Starts` of specs say what these are in the machine's
//! definition.
#![tactic(auto)]

pub mod signals;
pub mod starts;
pub mod turns;
mod values;
