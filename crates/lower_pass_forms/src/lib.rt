//! The notes of a program's code pass: forms that are applied to their operands.
//!
//! To be read in this order, in `proofs/`: `Applied`, what is taken of the operands of each form
//! passes; `Calls`, the same of calls, fields and spawned calls, by what the notes have of
//! functions and classes; `Finishing`, the operations that end a form; `Callees`, what is called or
//! awaited, with its operands; `Operators`, literals, operators, names, tuples and arrays.
//!
//! All of these are public, for the crate that puts the forms together.
#![tactic(auto)]
