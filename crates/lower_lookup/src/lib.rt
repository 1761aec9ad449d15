//! What the names, members, callees and statements of a program stand for, as its meaning has it.
//!
//! To be read in this order: `names`, what names and nodes stand for; `types`, what is asked of the
//! types of nodes; `actions`, the forms that have operands; `callees`, what stands before the
//! brackets of a call or an index; `members`, what is read and written behind a dot; `statements`,
//! what the parts of a block are; `targets`, what the target of `set` leads to.
//!
//! The public lemmas, which crates above cite, are those of `proofs/Targeting`.
#![tactic(auto)]

pub mod actions;
pub mod callees;
pub mod members;
pub mod names;
pub mod statements;
pub mod targets;
pub mod types;
