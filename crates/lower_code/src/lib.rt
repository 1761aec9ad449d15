//! The code of a program, as a definition: one clause for each form, put together of a few
//! combinators, with no label that is filled in later.
//!
//! To be read in this order, in `specs/`: `Pieces`, stretches of code and how they are put
//! together;
//! `Scopes`, the locals of names; `Arounds`, where a part of a function stands; `Applied`, the
//! operations of a form that is applied to its operands; `Defaults`, the functions that give fields
//! their defaults; `Lowering`, one case for each form; `Programs`, functions, tables and the whole
//! code. In `src/`, `arounds` has the values of `Arounds` for the code.
//!
//! The public lemmas, which crates above cite, are those of `proofs/Standing`, `proofs/Depths` and
//! `proofs/Scopes`.
#![tactic(auto)]

pub mod arounds;
