//! How a form notes its parts: by a function value that notes smaller trees.
//!
//! To be read in this order: `noter`, a part and the operands of a form.
//!
//! The public lemmas, which crates above cite, are those of `proofs/Operands`.
#![tactic(auto)]

pub mod noter;
