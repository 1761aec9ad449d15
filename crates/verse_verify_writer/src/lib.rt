//! Notes are written.
//!
//! To be read in this order: `numbers` and `sorts`, the parts of which all is made; `tables`, what
//! is said of classes and functions; `spots`, the states at operations; `writing`, the public call.
#![tactic(auto)]

mod numbers;
mod sorts;
mod spots;
mod tables;
pub mod writing;
