//! Reads types, blocks and expressions from toks.
//!
//! To be read in this order: `phrases`, the reader of all phrases; `faults`, why there is none;
//! `reads`, what the crate is called for.
#![tactic(auto)]

pub mod faults;
pub mod phrases;
mod reads;

pub use reads::{block, expr, ty};
