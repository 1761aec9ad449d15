//! The code of a program does on the machine what the program means: what lies at the bottom of the
//! proof. The meaning goes by outcomes and what is left of a suspended expression, the machine by
//! operations; the claim for an expression says what each outcome means for a machine at its code.
//!
//! `specs/Seen` says what is seen of a run. To be read in this order, in `proofs/`: `Paths`, the
//! names of tasks, and lists of tasks; `Claims`, what an outcome means for a machine; `Steps`, one
//! step of a run; `Going`, how what follows passes on, where tasks are cancelled, where more stands
//! around, where fewer wakings are left; `Following`, what goes on with a value; `Locals`, what the
//! locals hold, and where names stand in them;
//! `Leading`, from a step of the machine to an outcome; `Standing`, where a piece stands in the
//! code, and how each combinator splits; `Widening`, contexts with more locals that stay, and
//! values that go on from one place to another; `Forms`, what is shown of a tree, with the forms
//! that are applied to operands; `Contexts`, the contexts of the parts of a function; `Leaving`,
//! where a `return` and a
//! `break` stand, and where they are stuck.
//!
//! All of these are public, for the crates that show the other forms.
#![tactic(auto)]
