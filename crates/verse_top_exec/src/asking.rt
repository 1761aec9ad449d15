//! How a code is to be run.

/// How a code is to be run.
#[derive(Clone, Copy)]
pub struct Asked<'a> {
    /// What `Main` is given: at most 1000 integers.
    pub inputs: &'a [i64],
    /// How many steps the run may spend: at most `MOST_STEPS`.
    pub steps: u64,
    /// The horizon of the clock in milliseconds: at most `MOST_NOW`.
    pub until: u64,
    /// Whether the heap is written.
    pub heap: bool,
}
