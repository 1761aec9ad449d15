//! A machine that goes on from what is kept of a run. `machines` makes it, `laws` has that what is
//! kept of it then is again such. Of the definitions `Steps` says how many steps its run has, and
//! `Keeping` when it can be kept.
#![tactic(auto)]

pub mod laws;
pub mod machines;
