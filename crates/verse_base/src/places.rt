//! Places in a program.

/// A place in the program's text: the file counted from 0, the line and the column from 1. Columns
/// count bytes, after a byte-order mark.
#[derive(Clone, Copy, Debug, PartialEq, Eq)]
pub struct Place {
    pub file: u32,
    pub line: u32,
    pub col: u32,
}
