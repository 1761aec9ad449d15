//! Lowering: the code of every program.
//!
//! To be read in this order: `forms`, one case for each form; `trees`, the recursion; `functions`,
//! the functions of the code; `programs`, the whole code.
#![tactic(auto)]

mod forms;
mod functions;
mod programs;
mod trees;

pub use programs::{LowerFault, lower};
