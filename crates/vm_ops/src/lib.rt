//! The operations of a machine on values, one call for each.
//!
//! To be read in this order: `faults`, why there is no value; `ints`, sums and comparisons;
//! `equality`; `made`, values that are made; `aggregates`, what makes an array, a tuple, an option
//! or a map; `texts`; `parts`, what is read of a value.
#![tactic(auto)]

pub mod aggregates;
pub mod equality;
pub mod faults;
pub mod ints;
pub mod made;
pub mod parts;
pub mod texts;
