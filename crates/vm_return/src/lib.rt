//! Frames and tasks that end.
//!
//! To be read in this order: `follows`, what follows where tasks are cancelled; `ends`, a frame, a
//! part or a root has ended, or a deferred block of a cancelled task is over. `Follows` and `Ends`
//! of specs say what these are in the machine's definition.
#![tactic(auto)]

pub mod ends;
pub mod follows;
