//! The notes of a program's code pass: stretches of states beside their pieces of code.
//!
//! To be read in this order, in `proofs/`: `Names`, what is visible stands in a local whose sort is
//! known; `Going`, what is shown of a stretch: where what stands behind it is met, its operations
//! pass, and it is met itself; `Single`, single operations, and the value of a form; `Begins`, the
//! states of a tree begin with that in which it is entered; `Combined`, stretches to which an
//! operation leads; `Inside`, what is known of a state within a tree.
//!
//! All of these are public, for the crates that show the forms.
#![tactic(auto)]
