//! Waits of tasks over simulated time: which is due next, and what a signal or an end wakes.
//!
//! To be read in this order: `waits`, what a wait is, and the calls that every implementation has;
//! `moments`, when one wait is due; `vec_waits`; `calls`, which do the same to both
//! implementations; `pairs`, `queue`, `places` and `index`, where waits stand; `map_waits`.
#![tactic(auto)]

pub mod calls;
mod index;
pub mod map_waits;
mod moments;
mod pairs;
mod places;
mod queue;
pub mod vec_waits;
pub mod waits;
