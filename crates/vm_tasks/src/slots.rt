//! What a tree of tasks keeps of each task.

use sim_clock::waits::WaitKind;
use verse_base::places::Place;
use verse_value::values::Value;

/// Whether a task is one of its own, and of which spawned entry.
#[derive(Clone, Copy, Debug, PartialEq, Eq)]
pub enum Root {
    /// An arm, or a task behind.
    Part,
    Main,
    Spawned(u32),
}

/// What several arms give.
#[derive(Clone, Copy, Debug, PartialEq, Eq)]
pub enum Kind {
    /// The tuple of their values.
    Sync,
    /// The value of the first, and the others are cancelled.
    Race,
    /// The value of the first, and the others go on behind.
    Rush,
}

/// An arm of a group: it has given a value, or it is the child of this number.
#[derive(Drop)]
pub enum Arm {
    Did(Value),
    Runs(u64),
}

/// The group at which a task stands.
#[derive(Drop)]
pub struct Group {
    pub kind: Kind,
    pub place: Place,
    pub arms: Vec<Arm>,
}

/// Where the frames of a task are; F are frames.
#[derive(Drop)]
pub enum Held<F> {
    /// With the machine: the task runs, or waits until one that it has begun is suspended or over.
    ByMachine,
    /// It is asleep with the wait of this number and kind.
    Asleep(F, u64, WaitKind),
    AtGroup(F, Group),
}

/// A task: how many steps were left when it began, and when its last group began; before that the
/// first number stands for both.
#[derive(Drop)]
pub struct Slot<F> {
    pub number: u64,
    pub since: u64,
    pub root: Root,
    pub held: Held<F>,
}
