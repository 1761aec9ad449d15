//! The operations of a machine that concern other tasks, and those that end a frame: each is a call
//! on a task that runs. What is the task's own is done; the rest is asked of the machine.
//!
//! To be read in this order: `asked`, what is asked; `going`, a task that no failure context holds;
//! `waiting`, a task that is suspended; `starting`, tasks that begin; `ending`, frames that end.
//! `Asking` of specs says what each answer asks for in the machine's definition.
#![tactic(auto)]

pub mod asked;
pub mod ending;
mod going;
pub mod starting;
pub mod waiting;
