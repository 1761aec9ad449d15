//! The rows of operators, `set`, options, arrays and maps.
//!
//! To be read in this order: `operators`; `places`, what can be set; `lists`, what is made of
//! several parts; `options`.
#![tactic(auto)]

pub mod lists;
pub mod operators;
pub mod options;
pub mod places;
