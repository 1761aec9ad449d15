//! Effects: which forms may stand where.
//!
//! To be read in this order: `callees`, what is called; `forms`, which forms can fail, cannot be
//! undone, suspend or do more than compute; `specifiers`, which specifiers fit; `rules`, the least
//! rule that a node breaks; `seen`, what the pass has seen; `checking`, the pass over a program.
#![tactic(auto)]

mod callees;
pub mod checking;
mod forms;
mod rules;
mod seen;
mod specifiers;

pub use checking::effects;
