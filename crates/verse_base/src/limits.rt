//! Limits of the language.

/// How many bytes a file has at most.
pub const MOST_FILE_BYTES: usize = 1_048_576;

/// The greatest nesting load of a file.
pub const MOST_LOAD: u32 = 400;

/// How many bytes a trace has at most.
pub const MOST_TRACE_BYTES: u64 = 16_777_216;

/// How many operations a code has at most, and how many locals a function of it.
pub const MOST_OPERATIONS: usize = 16_777_216;

/// How many steps a run may spend at most.
pub const MOST_STEPS: u64 = 100_000_000;

/// The latest horizon of a run, in milliseconds, and so the latest moment at which one is saved.
pub const MOST_NOW: u64 = 1_000_000_000_000;

/// The latest moment for which a task waits, in milliseconds.
pub const MOST_MOMENT: u64 = 2_000_000_000_000;
