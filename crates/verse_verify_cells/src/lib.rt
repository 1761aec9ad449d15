//! The rule that an operation on cells breaks: one function for each operation.
//!
//! To be read in this order: `slots`, the slot that an operation reads or writes; `cells`, the
//! operations. `specs/Slots` says what is found in a slot, as a result, and what is asked of it.
#![tactic(auto)]

pub mod cells;
pub mod slots;
