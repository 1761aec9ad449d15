//! How a write makes the new value from the old one.

/// How a write makes the new value from the old one and the one given.
#[derive(Clone, Copy, Debug, PartialEq, Eq)]
pub enum Mode {
    /// The value given stands alone.
    Set,
    /// The sum of two ints, or two arrays joined.
    Add,
    Sub,
    Mul,
}
