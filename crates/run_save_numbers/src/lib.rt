//! The numbers of the tasks of a shot, of their frames and of the arms of their groups.
//!
//! To be read in this order: `tables`, what is told of each task; `marks`, the children of a task
//! by what they are to it; `settling`, the frames by their children; `numbers`, all tasks. Of the
//! definitions `Numbers` has what is told, and `Marking` what is kept of the tasks behind a place.
#![tactic(auto)]

mod marks;
pub mod numbers;
mod settling;
pub mod tables;
