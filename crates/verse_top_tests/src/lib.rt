//! The tests of the top call.
//!
//! To be read in this order: `telling`, what a call answers; `calls`, commands in text over files
//! in memory; `tests`, commands over files in text; `images_tests`, images, their listings and
//! notes, and their saved runs.
#![tactic(auto)]

#[cfg(test)]
mod calls;
#[cfg(test)]
mod images_tests;
pub mod telling;
#[cfg(test)]
mod tests;
