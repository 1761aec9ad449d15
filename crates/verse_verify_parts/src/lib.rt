//! What an operation makes and leaves, and whether the parts of a next state have it.
//!
//! To be read in this order: `heres`, an operation and the state at it; `operands`, what it pops;
//! `mades`, what it makes; `stacks`, `rows` and `parts`, whether a next state has that stack, those
//! locals, and that arm, block and open Trys; `names`, all open Trys. `specs/Heres` and
//! `specs/Mades` say what they are to the definitions. `RuleSets` has lemmas for crates above.
#![tactic(auto)]

pub mod heres;
pub mod mades;
pub mod names;
pub mod operands;
pub mod parts;
pub mod rows;
pub mod stacks;
