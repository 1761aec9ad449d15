//! Groups that have a value, and tasks that stand at theirs.
//!
//! To be read in this order: `arms`, what the arms of a group gave; `groups`, a task goes on with
//! its group's value or stands at it. `Groups` of specs says what these are in the machine's
//! definition.
#![tactic(auto)]

pub mod arms;
pub mod groups;
