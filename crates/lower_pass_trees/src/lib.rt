//! The notes of a program's code pass: each tree that the checker has found to be fine, form by
//! form.
//!
//! To be read in this order, in `proofs/`: `Ends`, what ends a call or an index; `Parts`, what is
//! done with the parts of a form; `Trees`, each form.
//!
//! All of these are public, for the crate that puts the functions of a program together.
#![tactic(auto)]
