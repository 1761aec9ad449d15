//! The rule that an operation breaks, of those that call a function, spawn one or return.
//!
//! A function for each operation: the least of V4 to V9 that it breaks, where `st` are the operands
//! above the innermost open Try, the top last. To be read in this order: `entering`, what arguments
//! must be; `functions`, operations that name a function or end one; `methods`, those that name a
//! method.
#![tactic(auto)]

pub mod entering;
pub mod functions;
pub mod methods;
