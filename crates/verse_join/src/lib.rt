//! The files of a program as one tree, with all nodes numbered.
//!
//! To be read in this order: `joining`, all files; `item_numbering`, what they define.
#![tactic(auto)]

mod item_numbering;
mod joining;

pub use joining::join;
