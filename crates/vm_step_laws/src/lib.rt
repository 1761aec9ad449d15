//! What the operations of a machine keep of a task's frames as long as the task goes on by itself.
//!
//! `Keeping` of specs says what, `Acts` of proofs that each operation keeps it. Of proofs other
//! crates cite `Acts.acts_keep`, and `Going`: a task that an operation has left running runs as it
//! did.
#![tactic(auto)]
