//! The states of `case`, its patterns and its arms.
//!
//! To be read in this order: `ends`, the ends of arms that are open while others are noted;
//! `patterns`; `cases`.
#![tactic(auto)]

pub mod cases;
pub mod ends;
pub mod patterns;
