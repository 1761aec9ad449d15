//! Notes: the states at the operations of the code of every program.
//!
//! To be read in this order: `functions`, what notes say of functions, and the states at their
//! operations; `programs`, the whole notes.
#![tactic(auto)]

mod functions;
mod programs;

pub use programs::note;
