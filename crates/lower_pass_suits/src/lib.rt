//! The notes of a program suit its code: bytes can spell them, where they can spell the sorts that
//! are found of the program.
//!
//! To be read in this order, in `proofs/`: `Spelled`, what is asked of what the checker has found;
//! `Suited`, what is kept of each state that is noted, and the changes that keep it; `Kept`, the
//! stretches that do, combinator by combinator; `Others`, what stands for no tree of its own;
//! `Forms`, one clause a form; `Sorted`, the sorts that states are made of; `Spots`, that a state
//! which is suited can be spelled; `Whole`, the notes of a program.
#![tactic(auto)]
