//! The states at the operations of a tree.
//!
//! To be read in this order: `forms`, one case for each form; `trees`, the recursion.
#![tactic(auto)]

mod forms;
pub mod trees;
