//! What every layer speaks of: places, rules and refusals, exact integers, and text in decimal.
//!
//! To be read in this order: `limits`; `places`, `refusals`, `rules`, `rule_texts`, what is
//! refused and where; `arithmetic`; `texts`.
//!
//! The public lemmas, which crates above cite, are those of `proofs/Facts`, on tests, lists and
//! numbers, and of `proofs/Division` and `proofs/Residues`.
#![tactic(auto)]

pub mod arithmetic;
pub mod limits;
pub mod places;
pub mod refusals;
pub mod rule_texts;
pub mod rules;
pub mod texts;
