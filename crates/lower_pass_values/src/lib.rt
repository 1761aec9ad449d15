//! The notes of a program's code pass: maps, indices, `set`, texts with holes, instances, members.
//!
//! To be read in this order, in `proofs/`: `Besides`, one state an operation of operands;
//! `Operands`, operands in turn, and maps; `Indices`, an index; `Targets`, what `set` writes to;
//! `Assigned`, what it writes; `Holes`; `Instances`, and `Tabled`, the defaults and classes that
//! these need; `Members`.
//!
//! All of these are public, for the crate that puts the forms together.
#![tactic(auto)]
