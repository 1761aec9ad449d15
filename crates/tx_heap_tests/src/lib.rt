//! The tests of cells and of both heaps.
//!
//! To be read in this order: `comparing`, whether two heaps tell the same; `handles`, values and
//! calls behind handles; `lists`, lists of calls; `tests`.
#![tactic(auto)]

pub mod comparing;
#[cfg(test)]
mod handles;
#[cfg(test)]
mod lists;
#[cfg(test)]
mod tests;
