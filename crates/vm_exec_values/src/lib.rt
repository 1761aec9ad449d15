//! The operations of a machine that work on values alone: each is a call on a task that runs.
//!
//! To be read in this order: `moves`, values that are pushed, and locals; `numbers`; `composites`,
//! what two values, or one, give; `collected`, what is made of several; `growing`, an array in a
//! local. Each call comes to what the machine's definition has for its operation.
#![tactic(auto)]

pub mod collected;
pub mod composites;
pub mod growing;
pub mod moves;
pub mod numbers;
