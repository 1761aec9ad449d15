//! Why bytes are no image.

ghost use Rattle.std.specs.Prelude.{◌≡◌};
ghost use Rattle.verse_image.specs.declared.faults.ReadFault.TheVariants as reading;

use std::alloc::{AllocError, AllocFailed};

/// Why bytes are not read as an image.
#[derive(Clone, Copy, Debug, PartialEq, Eq)]
pub enum ImageFault {
    /// There was no memory.
    Memory,
    /// The first failing place from the left: the rule that fails there, 1 to 7, and its offset.
    Bad { rule: u8, at: usize },
}

/// A rule that fails, where this many bytes are left.
#[derive(Clone, Copy, Debug, PartialEq, Eq)]
pub struct Flaw {
    pub rule: u8,
    pub left: usize,
}

/// Why a field is not read.
#[derive(Clone, Copy, Debug, PartialEq, Eq)]
pub enum ReadFault {
    Memory,
    Bad(Flaw),
}

impl From<AllocError> for ReadFault {
    ghost from_gives = { λ _ e. e ≡ reading.Memory };

    fn from(_error: AllocError) -> ReadFault {
        ReadFault::Memory
    }
}

impl<T: Drop> From<AllocFailed<T>> for ReadFault {
    ghost from_gives = { λ _ e. e ≡ reading.Memory };

    fn from(_error: AllocFailed<T>) -> ReadFault {
        ReadFault::Memory
    }
}
