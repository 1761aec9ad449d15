//! The states that are noted so far, and what the calls of a form add to them.
//!
//! What each call makes of it is a function of `specs/Noted` and `specs/Forms`; what all calls of a
//! combinator of stretches make of it together, with its parts between them, is a law of
//! `proofs/Laws` and `proofs/Loops`. To be read in this order: `noting`, the spots and the state
//! that stands now; `operations`, one operation and what becomes of the state; `forms`, what stands
//! between the parts of forms.
//!
//! The public lemmas, which crates above cite, are those of `proofs/Laws` and `proofs/Loops`.
#![tactic(auto)]

pub mod forms;
pub mod noting;
pub mod operations;
