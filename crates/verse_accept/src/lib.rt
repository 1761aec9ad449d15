//! The front end: the files of a program, from their bytes to the program that is accepted.
//!
//! To be read in this order: `programs`, the whole program; `turns`, a layer over all files in
//! turn; `files`, the layers over one file.
//!
//! The public lemmas, which crates above cite, are those of `proofs/InTurn` and `proofs/Answered`.
#![tactic(auto)]

mod files;
mod programs;
mod turns;

pub use programs::{Accepted, accept, accepted_once};
