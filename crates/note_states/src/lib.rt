//! States at operations, in memory, and what becomes of them.
//!
//! To be read in this order: `copies`, copies of sorts; `states`, a state, what is noted of it, and
//! its changes; `standing`, a state or none. `specs/View` says which states of the definition they
//! are.
#![tactic(auto)]

pub mod copies;
pub mod standing;
pub mod states;
