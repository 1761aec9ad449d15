//! The format of saved runs: what the bytes of a saved run are, and why bytes are none. `faults`
//! has the fault, `forms` and `weights` words for reading.
//!
//! Read the definitions in this order: `Format`, what is written; `Values`, `Reading` and `Whole`,
//! what is read, up to the first failing place; `Faults`, what an answer tells of a file.
//!
//! The public lemmas, which crates above cite, are those of `proofs/Lefts`.
#![tactic(auto)]

pub mod faults;
pub mod forms;
pub mod weights;
