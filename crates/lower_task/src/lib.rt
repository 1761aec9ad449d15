//! The operations of tasks: `sync`, `race`, `rush`, `branch` and `Sleep`.
//!
//! As in the crate of failure contexts, a form is lowered by calls that stand between its parts:
//! what each makes of the code so far is a function of `specs/Tasks`, and the laws of whole forms
//! are those of `proofs/Arms`.
#![tactic(auto)]

pub mod groups;
