//! Forms with blocks: failure contexts, statements, loops and cases.
//!
//! To be read in this order: `statements`, the statements of a block and conditions, one by one,
//! with their names; `blocks`, blocks, and definitions that stand by themselves; `failing`, failure
//! contexts; `loops`, `loop` and `for`; `patterns` and `cases`, the arms of a `case`.
//!
//! A form is lowered by one function, which lowers its parts by a function value. The generators of
//! a `for` and the arms of a `case` are open until what stands behind them is lowered: what is left
//! of the code stands in them. The lists of those that are open are the only memory taken here.
//!
//! The public lemmas, which crates above cite, are those of `proofs/Behind`, `proofs/Listed`,
//! `proofs/Leveled`, `proofs/Arming` and `proofs/NoPatterns`.
#![tactic(auto)]

pub mod blocks;
pub mod cases;
pub mod failing;
pub mod loops;
mod patterns;
mod statements;
