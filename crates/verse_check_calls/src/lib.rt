//! The rows of names, members, calls and instances.
//!
//! To be read in this order: `names`; `members`, what stands behind a dot; `instances`;
//! `arguments`, what built-in functions take; `calls`, both kinds of brackets, and `spawn`.
#![tactic(auto)]

pub mod arguments;
pub mod calls;
pub mod instances;
pub mod members;
pub mod names;
