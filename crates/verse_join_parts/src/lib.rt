//! What numbering makes besides expressions: copies of names, written types, nodes that hold no
//! expression, and forms by their kinds.
//!
//! To be read in this order: `copies`, names, texts and specifiers; `type_numbering`, written
//! types; `leaves`, nodes that hold no expression; `kinds`, forms with the same parts.
#![tactic(auto)]

pub mod copies;
pub mod kinds;
pub mod leaves;
pub mod type_numbering;
