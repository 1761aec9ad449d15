//! Programs that break no rule of names, types and effects, with their tables and types.
//!
//! To be read in this order: `naming`, what the names of a program stand for, or the least rule of
//! names that it breaks, E040 to E045; `programs`, the rules one group behind the other; `sizes`,
//! the size of a program. What names break, and how a program is refused for it, is said in
//! `specs/Breaking`; what a program breaks, in `specs/Sound`; that it has at most one such refusal
//! is proved in `proofs/Once`, and that each of these rules has a text in `proofs/OfNames` and
//! `proofs/Codes`, which crates above cite.
#![tactic(auto)]

pub mod naming;
pub mod programs;
pub mod sizes;
