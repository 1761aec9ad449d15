//! The states of forms whose parts are arms: `branch`, `sync`, `race` and `rush`.
#![tactic(auto)]

pub mod tasks;
