//! The lines of a listing: what each gives, or the rule that it breaks.
//!
//! To be read in this order: `faults`; `words`, `fields`, `texts`, what a line has; `tables`,
//! `operations`, the lines. The public lemma, which crates above cite, is `proofs/Cuts`.
#![tactic(auto)]

pub mod faults;
pub mod fields;
pub mod operations;
pub mod tables;
mod texts;
pub mod words;
