//! What is counted while values of a saved run are read.

/// Where a value stands.
#[derive(Clone, Copy)]
pub enum Where {
    /// In the cell at whose first byte so many bytes are left.
    Cell(usize),
    /// Outside of cells, where there are so many spawned entries.
    Among(usize),
}

/// The weight of what was read so far, of the value that is read and of all cells.
#[derive(Clone, Copy)]
pub struct Load {
    pub value: u64,
    pub cells: u64,
}

/// The numbers of a saved run, in their order.
#[derive(Clone, Copy)]
pub struct Numbers {
    /// How many steps are left.
    pub left: u64,
    /// How many steps were spent.
    pub spent: u64,
    /// The moment, in milliseconds.
    pub now: u64,
    /// The number of the next wait.
    pub next: u64,
    /// How many bytes were printed.
    pub bytes: u64,
    /// How many lines were printed.
    pub lines: u64,
}
