//! The run of a code or an image, written as it goes on.
//!
//! To be read in this order: `executing`, a code in hand or the bytes of a file; `streams`, the run
//! of a code from wherever it begins; `turns`, its trace; `heap_lines`, its heap; `asking`, how it
//! is run; `stops`, why it stops; `counting`, a run of which the lines are only counted. Of specs
//! `Courses` says what a run comes to, `Leaving` what is left in a sink, `Executions` what the
//! bytes come to.
//!
//! The public lemmas, which crates above cite, are those of `proofs/Takes`, `proofs/Leaving`,
//! `proofs/Executions`, `proofs/TurnLemmas` and `proofs/InsideRuns`.
#![tactic(auto)]

pub mod asking;
pub mod counting;
pub mod executing;
mod heap_lines;
pub mod stops;
pub mod streams;
pub mod turns;
