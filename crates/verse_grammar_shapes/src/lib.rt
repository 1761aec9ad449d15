//! The shapes of the grammar: what is spelled has them, and numbering keeps them.
//!
//! To be read: `laws`. The shapes are those of `verse_tree`, `specs/Shapes`.
#![tactic(auto)]

pub mod laws;
