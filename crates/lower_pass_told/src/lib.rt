//! What the tests of notes look at besides the rules holds of the notes of a program: of each state
//! that is noted it is told where it stands (`Held` of `lower_pass_states`).
//!
//! In `proofs/`: `Telling`.
#![tactic(auto)]
