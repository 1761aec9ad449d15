//! The writer of listings.
//!
//! To be read in this order: `words`; `lines`, a line each; `listings`, all lines of a code.
#![tactic(auto)]

mod lines;
mod listings;
mod words;

pub use listings::list;
