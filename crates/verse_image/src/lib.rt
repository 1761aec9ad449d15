//! Images: a code as bytes, and back.
//!
//! To be read in this order: `digits`, `pieces`, `encoding`, what is written; `faults`, `numbers`,
//! `fields`, `tables`, `operations`, `decoding`, what is read; `laws`.
//!
//! The public lemmas, which crates above cite, are those of `proofs/ImageLaws`, `proofs/TableLaws`,
//! `proofs/OperationLaws` and `proofs/ReadingSteps`.
#![tactic(auto)]

pub mod decoding;
pub mod digits;
pub mod encoding;
pub mod faults;
mod fields;
pub mod laws;
pub mod numbers;
mod operations;
mod pieces;
mod tables;
