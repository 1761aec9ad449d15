//! V8 and V9 of a verifier: whether an operation keeps to the rules on Trys, waits and deferred
//! blocks.
//!
//! To be read in this order: `kinds`, what operations of a kind may do; `tries`, the open Trys and
//! the locals that they keep; `blocks`, deferred blocks; `waits`, who may wait; `settling`, all of
//! them.
#![tactic(auto)]

pub mod blocks;
pub mod kinds;
pub mod settling;
pub mod tries;
pub mod waits;
