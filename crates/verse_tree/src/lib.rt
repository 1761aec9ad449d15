//! Syntax trees: what the grammar makes of a program, with a node for each of its parts.
//!
//! To be read in this order: `names`, spelled names and texts; `types`, written types; `exprs`,
//! blocks, statements and expressions; `items`, what a file defines; `tables`, what names stand
//! for and which types nodes have, with `fields`, those of a class; `programs`, all three together; `laws`, what numbering means;
//! `sizes`, the size of a program, over `instance_fields`.
//!
//! The public lemmas, which crates above cite, are those of `proofs/Lists`, `proofs/Order`,
//! `proofs/Leaves` and `proofs/Shapes`.
#![tactic(auto)]

pub mod exprs;
pub mod fields;
mod instance_fields;
pub mod items;
pub mod laws;
pub mod names;
pub mod programs;
pub mod sizes;
pub mod tables;
pub mod types;
