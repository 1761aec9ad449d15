//! The notes of a program's code pass: loops, failure contexts, scopes and deferred blocks.
//!
//! To be read in this order, in `proofs/`: `Loops`, where a loop is left; `Contexts`, what is known
//! of a state within a Try; `Scopes`, what is known where a local more holds something; `After`, a
//! state behind statements; `Leaving`, deferred blocks that run; `Attempts`, an attempt and an
//! operation at its label; `Trys`, what the operations of a failure context ask;
//! `Deferring`, a block that is deferred.
//!
//! All of these are public, for the crates that show the forms.
#![tactic(auto)]
