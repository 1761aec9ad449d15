//! The state of a run, what operations do with it, when waits are due and how a run ends: what the
//! meaning of a program and the machine have in common.
//!
//! The public lemmas, which crates above cite, are those of `proofs/Numbers`, tests of numbers and
//! elements by their places, `proofs/Keeping`, `proofs/Dues` and `proofs/Lines`.
#![tactic(auto)]
