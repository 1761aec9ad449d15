//! What is kept of the tasks beside the one that runs.

use std::alloc::Global;
use task_tree::tree::TaskTree;
use verse_base::places::Place;
use verse_value::runs::Ending;
use verse_value::values::Value;
use vm_frames::threads::Thread;
use vm_tasks::gone::Gone;
use vm_tasks::slots::{Arm, Kind, Slot};

/// What a spawned task gave, and the moment in milliseconds.
#[derive(Drop)]
pub struct Given {
    pub value: Value,
    pub moment: u64,
}

/// A task that begins the arms of its group.
#[derive(Drop)]
pub struct Begins {
    pub id: usize,
    pub thread: Thread,
    pub kind: Kind,
    pub place: Place,
    /// The arms that began before the one that runs.
    pub arms: Vec<Arm>,
    /// The steps that were left when the one that runs began.
    pub number: u64,
    /// Where those to come begin, the next one last.
    pub labels: Vec<u32>,
}

/// A task that waits until the one that it has begun is suspended or over, by its number in the
/// tree.
#[derive(Drop)]
pub enum Up {
    Begins(Begins),
    /// It has begun a task behind.
    Branching(usize, Thread),
    /// It has spawned the task of an entry.
    Spawning(usize, Thread, u32),
}

/// What follows where all tasks are cancelled that are to be.
#[derive(Drop)]
pub enum After {
    /// A task goes on with a value.
    Resuming(Thread, Value),
    /// An arm or a task behind ends with a value.
    Closing(Value),
    /// Main or a spawned task ends with a value.
    Finishing(Value),
}

/// All tasks of a run but for the frames of the one that runs, their waits, and what tasks gave one
/// another.
#[derive(Drop)]
pub struct Tasks<W> {
    pub alloc: Global,
    pub tree: TaskTree<Slot<Thread>>,
    /// The waits; and the frames of cancelled tasks whose deferred blocks are still to run, the
    /// next one last.
    pub gone: Gone<Thread, W>,
    /// Those that wait until the running task is suspended or over, the nearest one last.
    pub ups: Vec<Up>,
    /// What follows, while a deferred block of a cancelled task runs.
    pub after: Option<After>,
    /// The running task's number in the tree; that of the task which cancels, while it does.
    pub id: usize,
    /// The number of the next wait.
    pub next: u64,
    /// For each spawned task what it gave; None while it runs.
    pub results: Vec<Option<Given>>,
    /// The value of each signal.
    pub signals: Vec<Value>,
}

/// What a call has come to.
#[derive(Clone, Copy, Debug, PartialEq, Eq)]
pub enum Went {
    /// A task runs.
    On,
    /// The run is over.
    Over(Ending),
    /// No task runs: the one that did is suspended or over.
    Down,
}
