//! The rules on the whole list of a saved run: the first part that breaks one.
//!
//! To be read in this order: `cells`, what values in cells name; `fills`; `roots`, which entries
//! have a task; `arms` and `groups`, whether the arms of a group run; `order`, how siblings may
//! follow one another; `tests`, what a task is to its parent; `tasks`, the first task that breaks a
//! rule; `firsts`, the first part.
//!
//! What a rule asks of all tasks about one of them is counted before, so each pass takes each part
//! once. `specs/Tallies` has what is counted, and `proofs/` that the counts decide the rules.
#![tactic(auto)]

mod arms;
mod cells;
mod fills;
pub mod firsts;
mod groups;
mod order;
mod roots;
mod tasks;
mod tests;
