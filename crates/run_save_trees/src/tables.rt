//! What is made of the tasks of a saved run.

use sim_clock::waits::Wait;
use task_tree::tree::TaskTree;
use vm_frames::threads::Thread;
use vm_tasks::slots::Slot;

/// The tasks that were put so far.
#[derive(Drop)]
pub struct Restored {
    pub tree: TaskTree<Slot<Thread>>,
    /// Of each task its number in the tree.
    pub ids: Vec<usize>,
    /// Those of the tasks that are asleep.
    pub waits: Vec<Wait>,
}
