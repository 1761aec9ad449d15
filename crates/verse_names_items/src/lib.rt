//! The rules that items and members break, and the tables of what items define.
//!
//! To be read in this order: `rules`, the rules at one node; `faults`, the first fault; `tables`,
//! what is handed on; `declarations`, the public calls.
#![tactic(auto)]

pub mod declarations;
pub mod faults;
pub mod rules;
pub mod tables;
