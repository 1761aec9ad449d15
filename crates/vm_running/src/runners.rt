//! What a task that runs works on.

use trace_buf::buffers::TraceBuf;
use verse_value::runs::Ending;
use vm_frames::threads::Thread;

/// A task's frames, with the store and the trace, which have a mark for each handler of the frames.
#[derive(Drop)]
pub struct Runner<H> {
    pub thread: Thread,
    pub heap: H,
    pub trace: TraceBuf,
    /// The steps that are left, and those that are spent.
    pub left: u64,
    pub spent: u64,
    /// The moment in milliseconds.
    pub moment: u64,
}

/// How an operation went.
#[derive(Clone, Copy, Debug, PartialEq, Eq)]
pub enum Did {
    /// The task goes on with its next operation.
    On,
    /// The run is over. Of the task's frames nothing more is known.
    Over(Ending),
}
