//! Numbers the nodes of blocks, statements and expressions.
#![tactic(auto)]

pub mod numbering;
