//! The types of a program's nodes: one row for each form, and the rules of types, at single nodes.
//! The definitions of all rows and rules stand here; the crates `verse_check_values`,
//! `verse_check_calls` and `verse_check_control` have a function for each form.
//!
//! To be read in this order: `builtins`, the functions that are built in; `lookups`, what a node
//! refers to by the tables of names, and which function that is; `sets`, sets of names and of
//! numbers; `worlds`, the tables of a program; `facts`, what is known at a node; `spelling`,
//! written types; `keys`, types whose maps have keys; `callees`, what is called; `judged`, a type
//! with the rule that is broken; `parts`, the types of several parts.
//!
//! The public lemmas, which crates above cite, are those of `proofs/MoreNames`.
#![tactic(auto)]

pub mod builtins;
pub mod callees;
pub mod facts;
pub mod judged;
pub mod keys;
pub mod lookups;
pub mod parts;
pub mod sets;
pub mod spelling;
pub mod worlds;
