//! The code of blocks, failure contexts and loops does on the machine what they mean: for each form
//! a lemma, that the code of the form does so where the code of its parts does.
//!
//! To be read in this order, in `proofs/`: `Failing`, what is attempted, with `or` and `not`;
//! `Definitions`, a value that is put away under a name, and definitions that stand alone;
//! `Blocks`, statements in turn, blocks, conditions; `Choices`, `if`, `option` and `logic`;
//! `Loops`, `loop`,
//! `break` and `return`; `Domains`, the values that a generator draws from; `Takes`, its turns;
//! `Generators`, how they begin, and its locals; `For`, clauses, turns and body of a `for`;
//! `Cases`, patterns and the arms of a `case`.
//!
//! All of these are public, for the crate that puts the forms together. What a `defer` with the
//! statements behind it comes to is a premise here: `Defer_lead` in `Blocks`.
#![tactic(auto)]
