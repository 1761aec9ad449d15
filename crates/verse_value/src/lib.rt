//! The values of a run, and what is done with them: equality, size, copies, reading.
//!
//! To be read in this order: `bytes`, `keys` and `kept`, what values are made of; `values`;
//! `equality`, `sizes` and `lookups`, what is asked of them; `modes` and `runs`, words for those
//! above. What is written of a value is said in `specs/Texts`, and done by `verse_top_texts`.
//!
//! The public lemmas, which crates above cite, are those of `proofs/Steps`, `proofs/Seen`,
//! `proofs/KeyPlaces`, `proofs/Stepping` and `proofs/EqualityLaw`.
#![tactic(auto)]

pub mod bytes;
pub mod equality;
pub mod kept;
pub mod keys;
pub mod lookups;
pub mod modes;
pub mod runs;
pub mod sizes;
pub mod values;
