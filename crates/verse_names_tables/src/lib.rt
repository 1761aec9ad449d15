//! Tables of names, and what the items of a program put into them.
//!
//! To be read in this order: `dictionaries`, tables of names; `shared_names`, tables of which
//! classes share parts; `words`, specifiers and built-in names; `functions`, the types that are
//! spelled; `counting`, the numbers of functions, classes and enums; `indexing`, what the names of
//! items stand for, and the classes by their numbers.
#![tactic(auto)]

pub mod counting;
pub mod dictionaries;
pub mod functions;
pub mod indexing;
pub mod shared_names;
pub mod words;
