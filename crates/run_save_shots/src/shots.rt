//! What is kept of a run between two turns.

use sim_clock::waits::WaitKind;
use task_tree::tasks::Role;
use verse_value::runs::CellKind;
use verse_value::values::Value;

/// A frame of a suspended task.
#[derive(Drop)]
pub struct FrameShot {
    /// The index of the operation that suspended the frame or that made the call.
    pub place: u32,
    pub locals: Vec<Value>,
    /// The operands, the one pushed last at the end.
    pub stack: Vec<Value>,
    /// The indices of the deferred blocks, the last one at the end.
    pub defers: Vec<u32>,
}

/// What a suspended task waits for.
#[derive(Drop)]
pub enum RestShot {
    /// A wait, by its number, and for what.
    Leaf(u64, WaitKind),
    /// The arms of a group: the value of each that has one.
    Group(Vec<Option<Value>>),
}

/// A suspended task.
#[derive(Drop)]
pub struct TaskShot {
    /// The place of the parent in the list of tasks. `None` for Main and for spawned tasks.
    pub parent: Option<u32>,
    /// How it stands to its parent.
    pub role: Role,
    /// The number of the spawned entry. `None` for Main and for tasks with a parent.
    pub root: Option<u32>,
    /// The lowest frame first. There is at least one.
    pub frames: Vec<FrameShot>,
    pub rest: RestShot,
}

/// What is kept of a run between two turns.
#[derive(Drop)]
pub struct Shot {
    /// How many steps are left.
    pub left: u64,
    /// How many steps were spent.
    pub spent: u64,
    /// The moment, in milliseconds.
    pub now: u64,
    /// The number of the next wait.
    pub next: u64,
    /// How many bytes were printed.
    pub bytes: u64,
    /// How many lines were printed.
    pub lines: u64,
    /// What each cell is, and its slots, by address.
    pub cells: Vec<(CellKind, Vec<Value>)>,
    /// For each spawned task the value that it gave and the moment in milliseconds; `None` while it
    /// runs.
    pub spawned: Vec<Option<(Value, u64)>>,
    /// The suspended tasks, each behind its parent.
    pub tasks: Vec<TaskShot>,
}
