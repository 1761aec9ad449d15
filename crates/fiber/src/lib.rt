//! The frames of a task.
//!
//! To be read in this order: `opening`, how a frame begins; `bounding`, where a
//! frame goes on; `fibers`, the calls.
#![tactic(auto)]

pub mod bounding;
pub mod fibers;
mod opening;
