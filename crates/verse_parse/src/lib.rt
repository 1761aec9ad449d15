//! Reads the items of a file from toks.
//!
//! To be read in this order: `classes`, the items within a class; `items`, an item of a file;
//! `programs`, all items of a file. Enums, functions and specifiers are read by
//! `verse_parse_parts`.
#![tactic(auto)]

mod classes;
mod items;
mod programs;

pub use items::item;
pub use programs::parse;
