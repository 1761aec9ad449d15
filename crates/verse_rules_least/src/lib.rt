//! Which fault is the least: for any kind of node, and for any pass over nodes.
//!
//! To be read in this order: `faults`, a broken rule at a node, the first of two and the less of
//! two. What a pass over nodes in post-order finds is said in `specs/Least` and `specs/Both`, and
//! how a program is refused for it in `specs/Refusals`. It is proved once for all passes in
//! `proofs/Least`, `Both`, `Ordered`, `Refusals` and `Codes`, which crates above cite.
#![tactic(auto)]

pub mod faults;
