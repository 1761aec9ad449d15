//! A saved run that goes on, written as it goes on.
//!
//! To be read in this order: `resuming`, the bytes of a file; `runs`, the run of what they keep;
//! `lines`, the line that tells why they keep none. `Resuming` of specs says what the bytes come
//! to.
#![tactic(auto)]

mod lines;
pub mod resuming;
mod runs;
