//! The states of what is read of a value: of an object by a member, of others by indices.
//!
//! The public lemmas, which crates above cite, are those of `proofs/Steps`.
#![tactic(auto)]

pub mod indices;
pub mod members;
