//! Notes of a code, as a verifier has them in memory: `sorts`, what a value is as far as an
//! operation can ask, and then `notes`. `specs/View` says which sorts and notes of the definitions
//! they are.
#![tactic(auto)]

pub mod notes;
pub mod sorts;
