//! Operations of tasks and of deferred blocks: the least rule of V4 to V9 that one breaks.
//!
//! To be read in this order: `waits`, operations that wait for others; `arms`, what the arms of a
//! Group give; `groups`, Groups, arms and tasks behind; `blocks`, deferred blocks. `specs/Arms`
//! says what arms are to the definitions.
#![tactic(auto)]

pub mod arms;
pub mod blocks;
pub mod groups;
pub mod waits;
