//! The tasks beside the one that runs.
//!
//! To be read in this order: `tasks`, what is kept of them; `ups`, those that wait until the
//! running task is suspended or over; `moves`, a task goes on. Of specs `Frames` says what holds of
//! a task's frames, `Ups` and `Standing` when tasks stand for those of the machine's definition,
//! `Going` when a task runs and when none does, `Meets` and `Moving` what a call comes to.
//!
//! The public lemmas, which crates above cite, are those of `proofs/Free`, `proofs/Fines`,
//! `proofs/Untold`, `proofs/Running`, `proofs/Seated` and `proofs/Ends`.
#![tactic(auto)]

pub mod moves;
pub mod tasks;
pub mod ups;
