//! The code so far, and what adds to it the operations that stand behind the parts of a form.
//!
//! To be read in this order: `builder`, the code so far; `scopes`, the locals of a frame and what
//! names stand for; `endings`, what stands behind the parts of a form; `applied`, the ending of an
//! action on its operands.
//!
//! Each call says what it makes of the code by a function of `specs/Building`. Where it adds a
//! whole stretch of the definition of code, it says so by `made`: the code with what a maker adds.
//!
//! The public lemmas, which crates above cite: `proofs/Laws`, what `made` of each combinator is;
//! `proofs/Closing`, of a loop; `proofs/Scoping`, of scopes; `proofs/Whole`, of a whole code.
#![tactic(auto)]

pub mod applied;
pub mod builder;
pub mod endings;
pub mod scopes;
