//! Names in bodies: what they stand for, and the rules of names there.
//!
//! To be read in this order: `naming`, what is visible and what is found at a node; `types`,
//! `trees` and `items`, the walk over all nodes; `bodies`, the public call.
#![tactic(auto)]

pub mod bodies;
mod items;
mod naming;
mod trees;
mod types;
