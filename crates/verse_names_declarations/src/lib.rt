//! What the items of a program define, before rules and bodies are looked at.
//!
//! To be read in this order: `members`, the members that a class has from its ancestors;
//! `descents`, those of a class made of those of its parent; `lineage`, those of all classes, made
//! once; `known`, all that is known of the items.
#![tactic(auto)]

pub mod descents;
pub mod known;
pub mod lineage;
pub mod members;
