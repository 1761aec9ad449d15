//! The operations of failure contexts, loops, the arms of a `case` and deferred blocks.
//!
//! A form is lowered by calls that stand between its parts. What each makes of the code so far is a
//! function of `specs/Attempts`; what all calls of a form make of it together, with its parts
//! between them, is the form's law in `proofs/Forms`, and of statements, clauses and arms in
//! `proofs/Clauses`. Where any number of parts stand in one another, their ends are kept in a list
//! and ended at once: `ends`, with the laws of `proofs/OpenEnds`.
#![tactic(auto)]

pub mod attempts;
pub mod ends;
pub mod loops;
