//! Tasks that begin.
//!
//! To be read in this order: `begins`, a task behind, a spawned task, an arm; `groups`, the arms of
//! a group. `Doings` of specs says what these are in the machine's definition.
#![tactic(auto)]

pub mod begins;
pub mod groups;
