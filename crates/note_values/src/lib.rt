//! Operators, names, and values that are made: each form over its parts.
//!
//! To be read in this order: `operators`, one or two operands with what ends them; `lists`, tuples
//! and arrays; `texts`, texts with holes; `maps`; `instances`; `names`.
#![tactic(auto)]

pub mod instances;
pub mod lists;
pub mod maps;
pub mod names;
pub mod operators;
pub mod texts;
