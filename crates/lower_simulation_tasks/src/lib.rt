//! The code of tasks does on the machine what they mean.
//!
//! To be read in this order, in `proofs/`: `Besides`, tasks beside each other; `Scopes`, a scope of
//! tasks whole; `Roles`, the scope of an arm, of a task of its own and of a call; `Groups`, the
//! arms of a group; `Starts`, a task that waits, and what a task begins; `Waits`, the forms that
//! wait;
//! `Begins`, branches and groups; `Defers`, deferred blocks; `Deferring`, a `defer` among the
//! statements of a block.
//!
//! All of these are public, for the crate that puts the forms together.
#![tactic(auto)]
