//! The lines that a run prints, which can be taken back to a mark and drained into a sink.
//!
//! To be read in this order: `lines` and `sizes`, a line and how it is printed; `pieces`, bytes
//! that are written together; `buffers`, the trace.
#![tactic(auto)]

pub mod buffers;
mod lines;
mod pieces;
mod sizes;
