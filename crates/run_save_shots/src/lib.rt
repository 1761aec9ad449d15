//! What is kept of a run between two turns: `shots` has what is kept, of the whole run and of each
//! task, frame and wait.
//!
//! Read the definitions in this order: `Lists`; `Kept` and `View`, what is kept, as data;
//! `Fitting`, when that fits a code; `Naming` and `Spelling`, the state and the trees of tasks that
//! it spells;
//! `Keeping`, what is kept of a state and trees of tasks.
//!
//! The public lemmas, which crates above cite, are those of `proofs/Lists` and `proofs/Steps`.
#![tactic(auto)]

pub mod shots;
