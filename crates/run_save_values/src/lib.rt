//! Values of a saved run are read: from bytes on a value and the bytes behind it, or the first
//! failing place.
//!
//! To be read in this order: `numbers`, `choices`, the form of a part and what it weighs; `keys`,
//! `scalars`, `parts`, a value; `wholes`, values from outside.
//!
//! The public lemmas, which crates above cite, are those of `proofs/ListSteps`.
#![tactic(auto)]

pub mod choices;
mod keys;
pub mod numbers;
mod parts;
mod scalars;
pub mod wholes;
