//! A machine that runs a program in bytecode.
//!
//! To be read in this order: `machines`, what a machine holds, how it is made and what is read of
//! it; `operations`, those of a turn; `closing`, open marks at the end of a run; `stages`, the
//! start of a run and its next turn; `laws`, what holds of each run; `turns`, the calls, one by
//! one or all; `saving`, what is kept of a run that stopped. `Origins` of specs says where a run
//! begins, `Standing` when a machine stands for the
//! run of its code after so many calls, `Turning` what a call comes to.
#![tactic(auto)]

mod closing;
pub mod laws;
pub mod machines;
mod operations;
pub mod saving;
mod stages;
pub mod turns;
