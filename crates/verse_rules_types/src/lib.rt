//! Types: which fit which, what two join to, which are keys and which have equality.
//!
//! To be read in this order: `classes`, classes and their ancestors; `fitting`, which types fit
//! which; `joining`, what two types join to; `kinds`, keys, equality and levels.
#![tactic(auto)]

pub mod classes;
pub mod fitting;
pub mod joining;
pub mod kinds;
