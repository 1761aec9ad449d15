//! The states of loops: `loop` and `for`.
//!
//! To be read in this order: `turns`, generators that are open while clauses are noted; `loops`.
#![tactic(auto)]

pub mod loops;
pub mod turns;
