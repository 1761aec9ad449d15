//! Where a frame of a saved run stands: what its operation is to it, and whether it may stand
//! there.
#![tactic(auto)]

pub mod stands;
