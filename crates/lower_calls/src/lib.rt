//! Members, calls, indices, what `set` writes to, and tasks.
//!
//! A form is lowered by one function, whose contract names the code of the form; its parts are
//! lowered by the function value of `lower_parts`.
//!
//! To be read in this order: `tasks`, the forms whose parts are arms; `members`, what is read
//! behind a dot; `views`, the parts of callees and operands; `actions`, actions on their operands;
//! `calls`, calls, indices, and calls that are spawned; `aims`, the indices of what `set` writes
//! to, and `bases`, what they lead from; `targets`, `set`.
//!
//! The public lemmas, which crates above cite, are those of `proofs/Halves`, `proofs/Steps`,
//! `proofs/Unders`, `proofs/Indices` and `proofs/Seen`.
#![tactic(auto)]

pub mod actions;
pub mod aims;
pub mod bases;
pub mod calls;
pub mod members;
pub mod targets;
pub mod tasks;
pub mod views;
