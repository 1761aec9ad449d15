//! What an operation asks of the machine.

use verse_base::places::Place;
use verse_code::codes::Func;
use verse_value::values::Value;
use vm_running::runners::Did;

/// What an operation asks of the machine. The task's frames are then as they are to be: a task that
/// is suspended or waits goes on at its frame's place. Store, trace and steps are as they were.
#[derive(Drop)]
pub enum Asked {
    /// Nothing: the task goes on with its next operation, or the run is over.
    Nothing(Did),
    /// The task is suspended until this moment in milliseconds.
    SleepUntil(u64),
    /// The task is suspended for ever.
    SleepForever,
    /// The task goes on with the result of the spawned task of this number; it is suspended until
    /// there is one.
    AwaitTask(u32),
    /// The task is suspended until the event of this cell is signalled.
    AwaitEvent(u32),
    /// The event of this cell is signalled with the value, and the task goes on.
    Signal(u32, Value),
    /// A task of its own begins with a call, for a step.
    Spawn(Call),
    /// A task behind begins at this place, for a step, with a copy of the locals.
    Branch(u32),
    /// The arms of a group begin.
    Arms(Arms),
    /// The top frame has returned the value; the frame below goes on with it when what the top
    /// frame has begun since then is cancelled.
    Return(Ended),
    /// The last frame has returned the value: the task is over when what it has begun is cancelled.
    Finish(Ended),
    /// An arm or a task behind is over with the value, when what it has begun is cancelled.
    Close(Ended),
    /// A deferred block of a frame that is being cancelled is over.
    Clear,
}

/// A function and as many arguments as it has parameters.
#[derive(Drop)]
pub struct Call {
    pub func: Func,
    pub args: Vec<Value>,
}

/// The arms of a group.
#[derive(Drop)]
pub struct Arms {
    /// 0: all, 1: the first, 2: the first, and the others go on.
    pub kind: u32,
    /// The place of the group's error.
    pub place: Place,
    /// Where each arm begins; there is one.
    pub labels: Vec<u32>,
}

/// A frame that has ended.
#[derive(Drop)]
pub struct Ended {
    /// How many steps were left when it began.
    pub born: u64,
    pub value: Value,
}
