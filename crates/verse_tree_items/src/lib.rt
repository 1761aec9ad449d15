//! Items behind handles, which are let go by one call. Contracts see a handle as what it holds.
//!
//! To be read in this order: `funs`, functions and their parameters; `members`, members of classes;
//! `items`, items of files, and programs; `programs`, a program with its tables.
#![tactic(auto)]

pub mod funs;
pub mod items;
pub mod members;
pub mod programs;
