//! What a wait is, and the calls that every implementation of waits has.

ghost use Rattle.std.specs.Prelude.{◌≡◌, ℕ, List, OnOk, OnErr, length};
ghost use Rattle.sim_clock.specs.Pending.{IsAboveAll, added, removed, woken, first_due, wait_of};
ghost use Rattle.sim_clock.specs.declared.waits.WaitKind.TheVariants as kind;

use verse_base::refusals::Memory;

/// What a task waits for.
#[derive(Clone, Copy, Debug, PartialEq, Eq)]
pub enum WaitKind {
    /// A moment, in milliseconds.
    At(u64),
    Never,
    /// The end of the spawned task with this number.
    Task(u32),
    /// A signal of the event in this cell.
    Event(u32),
}

/// A wait: its number, the task that waits, and for what.
#[derive(Clone, Copy, Debug, PartialEq, Eq)]
pub struct Wait {
    pub number: u64,
    pub task: usize,
    pub kind: WaitKind,
}

/// A wait that has a moment. The cause is the number of the signal that woke a wait on an event,
/// and otherwise 0.
#[derive(Clone, Copy, Debug, PartialEq, Eq)]
pub struct Due {
    pub at: u64,
    pub number: u64,
    pub task: usize,
    pub cause: u64,
}

/// When a wait is due, and what gave it that moment.
#[derive(Clone, Copy, Debug, PartialEq, Eq)]
pub struct Wake {
    pub at: u64,
    pub cause: u64,
}

/// A wait that was added and not removed, and when it is due, where it has a moment.
#[derive(Clone, Copy, Debug, PartialEq, Eq)]
pub struct Pending {
    pub wait: Wait,
    pub wake: Option<Wake>,
}

/// Waits in the order in which they were added, which is that of their numbers.
///
/// After want of memory they are what they were. Only `add` takes memory.
pub trait Waits {
    ghost use Rattle.sim_clock.specs.declared.waits.Pending.{Pending};

    /// The waits that were added and not removed.
    ghost pending: { Self → List Pending };

    /// Adds a wait, whose number is above those of all waits. It is due at the moment of
    /// `WaitKind::At`, and otherwise not before it is woken. Takes the room that a later wake
    /// needs.
    fn add(&mut self, wait: Wait) -> Result<(), Memory>
        requires { IsAboveAll wait.number (pending self.old) }
        ensures ok { OnOk result (pending self.new ≡ added (pending self.old) wait) }
        ensures err { OnErr result (pending self.new ≡ pending self.old) };

    /// Removes the wait with this number, where there is one.
    fn remove(&mut self, number: u64)
        ensures { pending self.new ≡ removed number (pending self.old) };

    /// The wait with the least moment, and among those the one with the least number. None exactly
    /// where no wait has a moment.
    fn next(&self) -> Option<Due>
        ensures { result ≡ first_due (pending self.now) };

    /// Gives each wait on the event in this cell that has no moment the moment `now`, with the
    /// signal as its cause.
    fn wake_event(&mut self, cell: u32, signal: u64, now: u64)
        ensures { pending self.new ≡ woken (kind.Event cell) (record { at = now; cause = signal })
            (pending self.old) };

    /// Gives each wait on the end of this spawned task that has no moment the moment `now`.
    fn wake_task(&mut self, task: u32, now: u64)
        ensures { pending self.new ≡ woken (kind.Task task) (record { at = now; cause = 0 })
            (pending self.old) };

    /// How many waits there are.
    fn len(&self) -> u64
        ensures { result ≡ length (pending self.now) };

    /// The first wait of this task. None exactly where it has none.
    fn wait_of(&self, task: usize) -> Option<Wait>
        ensures { result ≡ wait_of task (pending self.now) };
}
