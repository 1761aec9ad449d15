//! How a form lowers its parts: by a function value that lowers smaller trees.
//!
//! To be read in this order: `parts`, those of forms that have several; `lowering`, a part and the
//! operands of a form.
//!
//! The public lemmas, which crates above cite, are those of `proofs/Lists`, `proofs/Operands` and
//! `proofs/Facts`.
#![tactic(auto)]

pub mod lowering;
pub mod parts;
