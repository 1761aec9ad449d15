//! What the items of a program declare: enums with their values, classes with their fields.
//!
//! To be read in this order: `numbers`, numbers in the code's range; `collecting`, the enums,
//! classes, fields and defaults in their order; `fields`, the fields of classes with what an
//! instance is given; `enums`, the values of enums.
#![tactic(auto)]

pub mod collecting;
pub mod enums;
pub mod fields;
pub mod numbers;
