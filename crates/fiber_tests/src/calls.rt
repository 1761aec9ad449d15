//! Calls on the frames of a task.

/// A call. All that go to a function enter one with one parameter, 3 locals and the entry 7.
#[derive(Clone, Copy)]
pub enum Call {
    Push(u32),
    Pop,
    Set(u32, u32),
    Enter(u32),
    Leave,
    Go(u32),
    Guard(u32, u32),
    Release,
    Unwind,
    Defer(u32),
    Take(u32),
    End,
}

/// What a call answers that answers nothing, or that is refused.
pub const NOTHING: i64 = -1;

/// How many locals a frame has.
pub const LOCALS: u32 = 3;

/// Where a function begins.
pub const ENTRY: u32 = 7;

/// The greatest length that is told.
pub const MOST: u64 = 1000000;
