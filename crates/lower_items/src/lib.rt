//! What the items of a program give to its code: functions, classes, and what is looked up there.
//!
//! To be read in this order: `bodies`, the functions of the code; `classes`, its table of classes;
//! `params`, how many parameters functions have, over `noted`; `tables`, what is made once for a
//! program, and what is looked up there.
#![tactic(auto)]

pub mod bodies;
pub mod classes;
pub mod noted;
pub mod params;
pub mod tables;
