//! Why a file has no saved run.

/// Why a file has no saved run.
#[derive(Clone, Copy, Debug, PartialEq, Eq)]
pub enum SaveFault {
    /// There was no memory.
    Memory,
    /// The first failing place from the left: the rule that fails there, 1 to 6, and its offset in
    /// the file.
    Bad { rule: u8, at: usize },
}
