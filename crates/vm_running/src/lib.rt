//! A machine's task that runs, and the ways in which its operations go on.
//!
//! To be read in this order: `runners`, what the task works on; `operands`, how operands are taken
//! off; `moves`, to another place; `spending`, a step; `failing`, back to a handler; `answering`,
//! with what an operation on values answers. `Views` and `Doings` of specs say what these are in
//! the machine's definition.
//!
//! The public lemmas, which crates above cite, are those of `proofs/Steps` and `proofs/Lines`, and
//! `proofs/Handed` of what calls hand out.
#![tactic(auto)]

pub mod answering;
pub mod failing;
pub mod moves;
pub mod operands;
pub mod runners;
pub mod spending;
