//! The operations of a machine that go elsewhere, and those of loops: each is a call on a task that
//! runs.
//!
//! To be read in this order: `jumps`; `domains`, what a loop takes values from; `taken`, the next
//! value of a domain; `taking`, a turn of a loop. Each call comes to what the machine's definition
//! has for its operation.
#![tactic(auto)]

pub mod domains;
pub mod jumps;
pub mod taken;
pub mod taking;
