//! What is kept of the tasks of a machine's tree.
//!
//! To be read in this order: `rests`, what a task waits for; `roles`, how it stands to its parent;
//! `places`, where tasks stand in the tree; `tasks`, one task and all.
#![tactic(auto)]

mod places;
mod rests;
mod roles;
pub mod tasks;
