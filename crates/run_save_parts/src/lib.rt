//! Parts of a saved run are read, up to its tasks: from bytes on a part and the bytes behind it, or
//! the first failing place.
//!
//! To be read in this order: `codes`, the code by its image; `counts`, the six numbers; `outside`,
//! values outside of cells; `cells`; `entries`, the spawned entries.
//!
//! The public lemmas, which crates above cite, are those of `proofs/Noted`.
#![tactic(auto)]

pub mod cells;
pub mod codes;
pub mod counts;
pub mod entries;
pub mod outside;
