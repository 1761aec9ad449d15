//! What the checker has found of a program, as sorts, said form by form: what soundness of types
//! rests on. Read `specs/Found`, `specs/Forms` (the forms with operands), `specs/Fine` (one case
//! for each shape of a tree), `specs/Programs`.
//!
//! The public lemmas, which crates above cite, are those of `proofs/Tables`, `proofs/Stored`
//! and `proofs/Both`.
#![tactic(auto)]
