//! What is kept of the frames of a machine's task: each frame with its locals, its operands, its
//! deferred blocks and the operation at which it stands; and which of them has begun a child.
#![tactic(auto)]

pub mod frames;
