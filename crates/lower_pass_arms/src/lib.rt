//! The notes of a program's code pass: tasks and `case`.
//!
//! To be read in this order, in `proofs/`: `Branching`, what is known in an arm, and `branch`;
//! `Grouping`, a group and its arms, which are `sync`, `race` and `rush`; `Choosing`, the arms of a
//! `case`, each of which is one lemma, and `case`.
//!
//! All of these are public, for the crate that puts the forms together.
#![tactic(auto)]
