//! The grammar: which toks spell which trees, and what the next tok decides.
//!
//! To be read in this order: `phrases`, what the grammar speaks of; `starts`, what the first tok of
//! a phrase says of it; `laws_spelled`, what is spelled is read, and spells one tree;
//! `laws_begins`, where reading stops.
//!
//! The public lemmas, which crates above cite, are those of `proofs/Sights`, `proofs/Fixing`,
//! `proofs/Eating`, `proofs/Sticking`, `proofs/StickingParts`, `proofs/Going`, `proofs/ByExpr`,
//! `proofs/SpelledLaws`, `proofs/EatingItems`, `proofs/StickingItems`, `proofs/GoingItems`,
//! `proofs/Moves`, `proofs/Local` and `proofs/CompletingStops`.
#![tactic(auto)]

pub mod laws_begins;
pub mod laws_spelled;
pub mod phrases;
pub mod starts;
