//! The types of a program's nodes and what they refer to, or the least rule of types that they
//! break, E050 to E059 and E070.
//!
//! To be read in this order: `tables`, the names of the members of classes and of the values of
//! enums, by which nodes are judged; `seen`, what the pass has seen; `checking`, the pass over a
//! program.
#![tactic(auto)]

pub mod checking;
mod seen;
pub mod tables;
