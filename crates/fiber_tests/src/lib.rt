//! The tests of a task's frames, against a model in plain lists.
//!
//! To be read in this order: `calls`, the calls; `driven`, these on the frames to be tested;
//! `playing`, rows of them and what is seen then; `model`, frames in plain lists; `both`, calls on
//! the two together; `tests`.
#![tactic(auto)]

#[cfg(test)]
mod both;
pub mod calls;
pub mod driven;
#[cfg(test)]
mod model;
#[cfg(test)]
mod playing;
#[cfg(test)]
mod tests;
