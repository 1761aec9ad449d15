//! The cells of a store by address, and a count of the accesses to them.
//!
//! To be read in this order: `lists`, the slots of a cell; `slots`, what stands in one of them, and
//! writes; `cells`, all of them by address.
//!
//! The public lemmas, which crates above cite, are those of `proofs/Weights` and `proofs/Stored`.
#![tactic(auto)]

pub mod cells;
pub mod lists;
pub mod slots;
