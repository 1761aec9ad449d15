//! Saved runs are read. `starts` finds where one begins in a file, `founds` reads its parts, and
//! `restoring` has the public call.
#![tactic(auto)]

mod founds;
pub mod restoring;
mod starts;
