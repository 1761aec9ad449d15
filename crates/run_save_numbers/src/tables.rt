//! What is told of each task.

/// The numbers of a task and of what it has.
#[derive(Drop)]
pub struct TaskNumbers {
    /// Its own.
    pub own: u64,
    /// Those of its frames, the lowest first.
    pub borns: Vec<u64>,
    /// That of the first child that is in the background of none of its frames; without one the
    /// steps that are left.
    pub above: u64,
    /// For each arm of its group that of the child.
    pub arms: Vec<u64>,
}
