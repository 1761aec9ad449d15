//! The code of a program does on the machine what the program means: the forms that take
//! operands, each from what holds of its parts.
//!
//! To be read in this order, in `proofs/`: `Tables`, what the tables of the program and of the
//! code say of functions, methods and classes, and what is claimed of calls, of tasks that are
//! spawned, of defaults and of waits; `Operands`, operands in turn, whatever stands between
//! them; `Names`, names and `Self`; `Unfit`, what is no form of its own; `Operators`, literals,
//! operators, tuples and arrays; `Texts`, texts with holes; `Made`, maps and events; `Applied`,
//! a form that is applied to its operands; `Members`, members; `Callees`, what a callee stands
//! for; `Calls`, the operations of calls; `Called`, calls and indices; `Spawned`, the call that
//! a task begins with; `Targets`, what `set` writes to; `Writes`, the write; `Assigned`, `set`
//! as a whole; `Instances`, the values that an instance is given, and the defaults of its other
//! fields.
//!
//! All of these are public, for the crate that puts the forms together.
#![tactic(auto)]
