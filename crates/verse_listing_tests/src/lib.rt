//! The tests of listings.
//!
//! To be read in this order: `again`, a code that is listed and assembled again; `tests`.
#![tactic(auto)]

pub mod again;
#[cfg(test)]
mod tests;
