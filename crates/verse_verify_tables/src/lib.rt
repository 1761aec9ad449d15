//! V2 of a verifier: whether the notes of classes and functions are right, and where they are not.
//!
//! To be read in this order: `numbers`; `parents`, chains of classes; `methods`, what stands in
//! place of a parent's method; `classes` and `functions`, each by itself; `tables`, all of them.
#![tactic(auto)]

mod classes;
mod functions;
mod methods;
pub mod numbers;
mod parents;
pub mod tables;
