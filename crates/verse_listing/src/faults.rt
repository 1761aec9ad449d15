//! Why bytes are no listing.

ghost use Rattle.std.specs.Prelude.{◌≡◌};
ghost use Rattle.verse_listing.specs.declared.faults.ReadFault.TheVariants as reading;

use std::alloc::AllocError;

/// Why bytes are not assembled.
#[derive(Clone, Copy, Debug, PartialEq, Eq)]
pub enum ListFault {
    /// There was no memory.
    Memory,
    /// The first failing line, counted from 1, and the first of L1, L4, L2 and L3 that it breaks,
    /// by its number.
    Bad { rule: u8, line: u64 },
}

/// A rule that a line breaks.
#[derive(Clone, Copy, Debug, PartialEq, Eq)]
pub struct Flaw {
    pub rule: u8,
    pub line: u64,
}

/// Why lines give nothing.
#[derive(Clone, Copy, Debug, PartialEq, Eq)]
pub enum ReadFault {
    Memory,
    Bad(Flaw),
}

impl From<AllocError> for ReadFault {
    ghost from_gives = { λ _ e. e ≡ reading.Memory };

    fn from(_error: AllocError) -> ReadFault {
        ReadFault::Memory
    }
}
