//! Why notes are refused.

/// Why bytes are refused as notes of a code.
#[derive(Clone, Copy, Debug, PartialEq, Eq)]
pub enum VerifyFault {
    /// There was no memory.
    Memory,
    /// They break this rule, the first that they break in the order of the rules; 1 to 9 stand
    /// for V1 to V9. The place is an offset of a byte for V1, the number of a class or, behind all
    /// classes, of a function for V2, and the index of an operation for V3 to V9.
    Bad { rule: u8, at: usize },
}
