//! What the tables of a program have found, as sorts.
//!
//! `specs/Tabled` says what they have found, `specs/Kinds` which sorts forms ask for. To be read in
//! this order: `types`, the sort of a type; `kinds`, sorts by the numbers of nodes; `classes` and
//! `functions`, what notes say of them.
#![tactic(auto)]

pub mod classes;
pub mod functions;
pub mod kinds;
pub mod types;
