//! Notes are read: from bytes on a part of them and the bytes behind it, or the first failing
//! place.
//!
//! To be read in this order: `sorts`, `lists` and `choices`, the parts of which all is made;
//! `tables`, what is said of classes and functions; `spots`, the states at operations; `wholes`,
//! all notes of a code.
#![tactic(auto)]

pub mod choices;
pub mod lists;
pub mod sorts;
pub mod spots;
pub mod tables;
pub mod wholes;
