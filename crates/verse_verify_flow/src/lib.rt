//! The rule that an operation breaks, of those on locals, jumps, attempts and loops.
//!
//! A function for each operation: the least of V4 to V9 that it breaks, where `st` are the operands
//! above the innermost open Try, the top last. To be read in this order: `writing`, the locals that
//! an operation writes; `locals`, `jumps`, `tries` and `loops`, the operations; `taking`, what Take
//! writes. `specs/Writing` says what it is to write.
#![tactic(auto)]

pub mod jumps;
pub mod locals;
pub mod loops;
pub mod taking;
pub mod tries;
pub mod writing;
