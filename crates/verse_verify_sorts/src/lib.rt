//! Tests of sorts, each of them one of `verse_verify_faults`.
//!
//! To be read in this order: `numbers`, `sameness`, what is the same; `classes`, which class
//! inherits from which; `fitting`, which sort fits which; `keys`, which are sorts of keys;
//! `values`, which sorts have no value.
#![tactic(auto)]

pub mod classes;
pub mod fitting;
pub mod keys;
pub mod numbers;
pub mod sameness;
pub mod values;
