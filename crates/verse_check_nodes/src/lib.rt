//! What is found at one node: its type, the least rule of types that it breaks, and what it refers
//! to.
//!
//! To be read in this order: `plain` and `shared`, rows of few words; `forms`, the row of each
//! form; `kinds`, the rules of types alone; `uses`, whether a value may be used so; `nodes`, what
//! is found at a node.
#![tactic(auto)]

mod forms;
mod kinds;
pub mod nodes;
mod plain;
mod shared;
mod uses;
