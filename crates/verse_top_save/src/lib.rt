//! A run that is saved where it stops at its horizon, written as it goes on.
//!
//! To be read in this order: `saving`, the bytes of a file that is run as an image; `stopping`, the
//! run of a code and what is saved of it; `lines`, the line before what is saved. `Saving` of specs
//! says what the bytes come to.
#![tactic(auto)]

mod lines;
pub mod saving;
mod stopping;
