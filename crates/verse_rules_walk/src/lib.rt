//! One walk over all nodes of a program, parts before the whole, for any pass that asks at each
//! node only what stands round it and what the pass has seen before.
//!
//! To be read in this order: `arounds`, what stands round a node; `passes`, what a pass does at a
//! node; `types`, `trees`, `items`, the walk; `laws`, in which order it goes. That the walk
//! does the step of each node in turn is proved in `proofs/Through`, which passes cite.
//!
//! The public lemmas, which crates above cite, are those of `proofs/Through` and `proofs/Order`.
#![tactic(auto)]

pub mod arounds;
pub mod items;
pub mod laws;
pub mod passes;
pub mod trees;
pub mod types;
