//! The tasks of a machine in a tree, with the waits of those that are asleep.
//!
//! To be read in this order: `slots`, what the tree keeps of a task; `deferring`, of which frames
//! deferred blocks are still to run; `gone`, where the frames of
//! cancelled tasks go; `table`, the changes of the tree; `readings` and `putting`, what a saved run
//! keeps of its tasks, and how they are put into a tree again.
//!
//! The public lemmas, which crates above cite, are those of `proofs/Endings`.
#![tactic(auto)]

pub mod deferring;
pub mod gone;
pub mod putting;
pub mod readings;
pub mod slots;
pub mod table;
