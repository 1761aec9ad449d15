//! Reads expressions, and what begins with `set` or `return`, from toks.
//!
//! To be read in this order: `choices`, expressions and `if`; `controls`.
//!
//! The public lemmas, which crates above cite, are those of `proofs/Starting`.
#![tactic(auto)]

pub mod choices;
pub mod controls;
