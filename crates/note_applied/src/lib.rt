//! The states of names, of what stands behind the operands of a form, and of what leaves.
//!
//! To be read in this order: `names`, what names stand for; `values`, definitions and what `set`
//! writes; `applied`, a form behind its operands; `leaving`, `return` and `break`.
//!
//! The public lemmas, which crates above cite, are those of `proofs/Steps`.
#![tactic(auto)]

pub mod applied;
pub mod leaving;
pub mod names;
pub mod values;
