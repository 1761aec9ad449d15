//! Why a line gives nothing.

ghost use Rattle.std.specs.Prelude.{◌≡◌};
ghost use Rattle.verse_listing_lines.specs.declared.faults.LineFault.TheVariants as lines;

use std::alloc::{AllocError, AllocFailed};

/// L1: no line of this form may stand there.
pub const FORM: u8 = 1;
/// L2: no operation has this name.
pub const NAME: u8 = 2;
/// L3: a wrong number of operands, or a field outside its rule.
pub const FIELD: u8 = 3;
/// L4: an operation's index is not its number.
pub const INDEX: u8 = 4;

/// Why a line gives nothing.
#[derive(Clone, Copy, Debug, PartialEq, Eq)]
pub enum LineFault {
    Memory,
    /// It breaks the rule of this number.
    Broken(u8),
}

impl From<AllocError> for LineFault {
    ghost from_gives = { λ _ e. e ≡ lines.Memory };

    fn from(_error: AllocError) -> LineFault {
        LineFault::Memory
    }
}

impl<T: Drop> From<AllocFailed<T>> for LineFault {
    ghost from_gives = { λ _ e. e ≡ lines.Memory };

    fn from(_error: AllocFailed<T>) -> LineFault {
        LineFault::Memory
    }
}
