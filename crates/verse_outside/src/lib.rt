//! The outside: files that are loaded by name and sinks that take bytes. Each counts its faults.
//!
//! To be read in this order: `files`, `sinks`; `chosen`, `memory_files`, `memory_sinks`, `sure`,
//! `standard`, which are some of them.
//!
//! The public lemmas, which crates above cite, are those of `proofs/Taken`.
#![tactic(auto)]

mod chosen;
pub mod files;
pub mod memory_files;
pub mod memory_sinks;
pub mod sinks;
pub mod standard;
pub mod sure;
