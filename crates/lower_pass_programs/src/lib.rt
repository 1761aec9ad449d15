//! The notes of a whole program fulfil the rules, where the program is fine.
//!
//! To be read in this order, in `proofs/`: `Numbers`, the functions of a program by their numbers;
//! `Telling`, what is asked of what the checker has found; `Declared`, the functions and classes of
//! the code and their notes; `Inheriting`, classes inherit as the notes say; `Entries`, each body
//! in the state of its entry; `Bodies`, a body's states pass, and so do those of all bodies;
//! `Classes`, the rules of classes; `Whole`, all rules.
#![tactic(auto)]
